//! The fields of a task state segment and their orders, field by field from the manual's figure.
use m386_tss::fields::{
    EAX, EFLAGS, EIP, ES, ESP0, FIELDS, LDT, LINK, MAP, SS0, TRAP, TSS_LEN, tss_field,
};
use m386_tss::orders::{load_order, save_order};

/// Each field of the figure in its order: the number that its name has here, its offset and its length (PRM figure 7-1).
const FIGURE: [(u8, u8, u8); 27] = [
    (LINK, 0x00, 2),
    (ESP0, 0x04, 4),
    (SS0, 0x08, 2),
    (ESP0 + 2, 0x0c, 4),
    (SS0 + 2, 0x10, 2),
    (ESP0 + 4, 0x14, 4),
    (SS0 + 4, 0x18, 2),
    // CR3 has no name: nothing reads it.
    (7, 0x1c, 4),
    (EIP, 0x20, 4),
    (EFLAGS, 0x24, 4),
    // EAX, ECX, EDX, EBX, ESP, EBP, ESI, EDI.
    (EAX, 0x28, 4),
    (EAX + 1, 0x2c, 4),
    (EAX + 2, 0x30, 4),
    (EAX + 3, 0x34, 4),
    (EAX + 4, 0x38, 4),
    (EAX + 5, 0x3c, 4),
    (EAX + 6, 0x40, 4),
    (EAX + 7, 0x44, 4),
    // ES, CS, SS, DS, FS, GS.
    (ES, 0x48, 2),
    (ES + 1, 0x4c, 2),
    (ES + 2, 0x50, 2),
    (ES + 3, 0x54, 2),
    (ES + 4, 0x58, 2),
    (ES + 5, 0x5c, 2),
    (LDT, 0x60, 2),
    (TRAP, 0x64, 2),
    (MAP, 0x66, 2),
];

#[test]
fn each_field_has_its_place(rt: HostRuntime) {
    for (place, (name, offset, len)) in FIGURE.into_iter().enumerate() {
        assert!(rt; name < 27);
        let field = tss_field(name);
        assert_eq!(rt; field, FIELDS[name as usize], "field {place}");
        assert_eq!(rt;
            (field.number as usize, field.offset, field.len),
            (place, offset, len),
            "field {place}"
        );
    }
    assert_eq!(rt; TSS_LEN, 104);
}

#[test]
fn a_switch_saves_and_loads_in_order(rt: HostRuntime) {
    assert_eq!(rt;
        save_order().as_slice(),
        [8, 9, 10, 11, 12, 13, 14, 15, 16, 17, 18, 19, 20, 21, 22, 23].as_slice()
    );
    assert_eq!(rt;
        load_order().as_slice(),
        [
            8, 9, 10, 11, 12, 13, 14, 15, 16, 17, 18, 19, 20, 21, 22, 23, 24, 25
        ]
        .as_slice()
    );
}
