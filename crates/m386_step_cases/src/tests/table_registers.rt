//! Operations on the registers of the GDT, the IDT and the LDT, with the cycles of each part.
use super::system::{with_eax, with_ldtr};
use super::{Case, at, bare, fetch, joined, pending, read, step_over_bytes, step_over_values};
use m386_base::ask::{Ask, Role};
use m386_base::desc::Desc;
use m386_state::proc::Proc;
use m386_state::segment::{Seg, TableReg};

/// The state with another register of the GDT.
fn with_gdt(p: &Proc, base: u32, limit: u16) -> Proc {
    let mut after = *p;
    after.gdtr = TableReg { base, limit };
    after
}

/// A cycle of another role.
fn of_role(role: Role, ask: Ask) -> Ask {
    Ask { role, ..ask }
}

/// LGDT and LIDT.
pub(crate) const LOADS: &str = "\
LGDT [1010h]
 bytes 0f 01 15 10 10 00 00
 r fetch 0 1000 f 1015010f
 r fetch 0 1004 f 10
 r lgdt 0 1010 3 2211
 r lgdt 0 1010 c 44330000
 r lgdt 2 1014 3 6655
 after eip=1007 gdtr=66554433:2211
LGDT [1010h] of 16 bits
 bytes 66 0f 01 15 10 10 00 00
 r fetch 0 1000 f 15010f66
 r fetch 0 1004 f 1010
 r lgdt 0 1010 3 2211
 r lgdt 0 1010 c 44330000
 r lgdt 2 1014 3 6655
 after eip=1008 gdtr=554433:2211
LIDT [1012h]
 bytes 0f 01 1d 12 10 00 00
 r fetch 0 1000 f 121d010f
 r fetch 0 1004 f 10
 r lidt 0 1010 c 44330000
 r lidt 0 1014 f 88776655
 after eip=1007 idtr=88776655:4433
LIDT [1012h] of 16 bits
 bytes 66 0f 01 1d 12 10 00 00
 r fetch 0 1000 f 1d010f66
 r fetch 0 1004 f 1012
 r lidt 0 1010 c 44330000
 r lidt 0 1014 f 88776655
 after eip=1008 idtr=776655:4433
LGDT [FFFFFFFEh], whose base is at offset 0
 bytes 0f 01 15 fe ff ff ff
 r fetch 0 1000 f fe15010f
 r fetch 0 1004 f ffffff
 r lgdt 0 fffffffc c ffff0000
 r lgdt 0 0 f 0
 after eip=1007 gdtr=0:ffff
LGDT [FFFFFFFCh], whose base passes the last offset
 bytes 0f 01 15 fc ff ff ff
 r fetch 0 1000 f fc15010f
 r fetch 0 1004 f ffffff
 r lgdt 0 fffffffc 3 ffff
 after pending=d:0
LIDT [FFFFFFFFh], whose limit passes the last offset
 bytes 0f 01 1d ff ff ff ff
 r fetch 0 1000 f ff1d010f
 r fetch 0 1004 f ffffff
 after pending=d:0
";

/// SGDT and SIDT.
pub(crate) const STORES: &str = "\
start cs=b:0:fffff:9b:c gdtr=9abcdef0:1234 idtr=87654321:fed
SGDT [1010h]
 bytes 0f 01 05 10 10 00 00
 r fetch 0 1000 f 1005010f
 r fetch 0 1004 f 10
 w data 0 1010 3 1234
 w data 0 1010 c def00000
 w data 2 1014 3 9abc
 after eip=1007
SGDT [1010h] of 16 bits
 bytes 66 0f 01 05 10 10 00 00
 r fetch 0 1000 f 5010f66
 r fetch 0 1004 f 1010
 w data 0 1010 3 1234
 w data 0 1010 c def00000
 w data 2 1014 3 9abc
 after eip=1008
SIDT [1012h]
 bytes 0f 01 0d 12 10 00 00
 r fetch 0 1000 f 120d010f
 r fetch 0 1004 f 10
 w data 0 1010 c fed0000
 w data 0 1014 f 87654321
 after eip=1007
SIDT [FFFFFFFEh], whose base is at offset 0
 bytes 0f 01 0d fe ff ff ff
 r fetch 0 1000 f fe0d010f
 r fetch 0 1004 f ffffff
 w data 0 fffffffc c fed0000
 w data 0 0 f 87654321
 after eip=1007
SGDT [FFFFFFFCh], whose base passes the last offset
 bytes 0f 01 05 fc ff ff ff
 r fetch 0 1000 f fc05010f
 r fetch 0 1004 f ffffff
 w data 0 fffffffc 3 1234
 after pending=d:0
";

/// The bytes of LLDT AX, and eight bytes behind them that are the descriptor 0008 of a GDT at 1000h: base 123456h, limit 27h and this
/// access byte.
fn lldt(access: u8) -> [u8; 16] {
    [
        0x0f, 0, 0xd0, 0, 0, 0, 0, 0, 0x27, 0, 0x56, 0x34, 0x12, access, 0, 0,
    ]
}

/// A load of LDTR: the selector in EAX, the limit of the GDT, the access byte of its descriptor 0008, whether that is read, and the
/// fault.
#[derive(Clone, Copy)]
struct LocalLoad {
    name: &'static str,
    selector: u32,
    limit: u16,
    access: u8,
    read: bool,
    fault: Option<(u8, u16)>,
}

const LOCAL_LOADS: [LocalLoad; 12] = [
    LocalLoad {
        name: "an LDT",
        selector: 8,
        limit: 15,
        access: 0x82,
        read: true,
        fault: None,
    },
    LocalLoad {
        name: "by RPL 3, with DPL 0",
        selector: 11,
        limit: 15,
        access: 0x82,
        read: true,
        fault: None,
    },
    LocalLoad {
        name: "the upper half of the register doesn't count",
        selector: 0xffff_0008,
        limit: 0xffff,
        access: 0xe2,
        read: true,
        fault: None,
    },
    LocalLoad {
        name: "in the LDT",
        selector: 12,
        limit: 0xffff,
        access: 0x82,
        read: false,
        fault: Some((13, 12)),
    },
    LocalLoad {
        name: "the first descriptor of the LDT isn't null",
        selector: 4,
        limit: 0xffff,
        access: 0x82,
        read: false,
        fault: Some((13, 4)),
    },
    LocalLoad {
        name: "whose last byte is past the limit",
        selector: 8,
        limit: 14,
        access: 0x82,
        read: false,
        fault: Some((13, 8)),
    },
    LocalLoad {
        name: "an available TSS",
        selector: 10,
        limit: 15,
        access: 0x89,
        read: true,
        fault: Some((13, 8)),
    },
    LocalLoad {
        name: "data that is of type 2",
        selector: 8,
        limit: 15,
        access: 0x92,
        read: true,
        fault: Some((13, 8)),
    },
    LocalLoad {
        name: "a TSS that isn't present",
        selector: 8,
        limit: 15,
        access: 0x09,
        read: true,
        fault: Some((13, 8)),
    },
    LocalLoad {
        name: "an LDT that isn't present",
        selector: 11,
        limit: 15,
        access: 0x02,
        read: true,
        fault: Some((11, 8)),
    },
    LocalLoad {
        name: "a call gate",
        selector: 8,
        limit: 15,
        access: 0x8c,
        read: true,
        fault: Some((13, 8)),
    },
    LocalLoad {
        name: "a task gate",
        selector: 8,
        limit: 15,
        access: 0x85,
        read: true,
        fault: Some((13, 8)),
    },
];

/// The state behind a load of LDTR.
fn behind(p: &Proc, row: &LocalLoad) -> Proc {
    match row.fault {
        Some((vector, code)) => pending(p, vector, Some(code)),
        None => {
            let ldtr = Seg {
                selector: (row.selector % 0x1_0000) as u16,
                usable: true,
                desc: Desc::new(0x12_3456, 0x27, row.access, 0),
            };
            with_ldtr(&at(p, 0x1003), ldtr)
        }
    }
}

#[test]
fn ldtr_is_loaded_by_its_rules_in_order(rt: HostRuntime) {
    for row in &LOCAL_LOADS {
        let p = with_gdt(&with_eax(&bare(), row.selector), 0x1000, row.limit);
        let code = lldt(row.access);
        let cycles = [
            fetch(0x1000, 0x00d0_000f),
            of_role(Role::Gdt, read(0, 0x1008, 15, 0x3456_0027)),
            joined(of_role(
                Role::Gdt,
                read(0, 0x100c, 15, 0x12 + u32::from(row.access) * 0x100),
            )),
        ];
        let made = if row.read { 3 } else { 1 };
        let case = Case {
            name: row.name,
            before: p,
            code: &code,
            cycles: &cycles[..made],
            after: behind(&p, row),
        };
        step_over_bytes(&rt, &case);
        step_over_values(&rt, &case);
    }
}

/// LLDT from a register and from memory.
pub(crate) const LLDTS: &str = "\
start ldtr=8:0:fffff:82:0 gdtr=1000:ffff
a null selector, which is kept
 before eax=3
 bytes 0f 00 d0
 r fetch 0 1000 f d0000f
 after eip=1003 ldtr=-3:0:0:0:0
LLDT [1010h], 2211h, past a short GDT
 before gdtr=1000:2216
 bytes 0f 00 15 10 10 00 00
 r fetch 0 1000 f 1015000f
 r fetch 0 1004 f 10
 r data 0 1010 3 2211
 after pending=d:2210
LLDT [FFFFFFFFh], past the last offset
 bytes 0f 00 15 ff ff ff ff
 r fetch 0 1000 f ff15000f
 r fetch 0 1004 f ffffff
 after pending=d:0
from a GDT that isn't aligned
 before eax=8 ldtr=-0:0:0:0:0 gdtr=ffe:f
 bytes 0f 00 d0 00 00 00 27 00 56 34 12 82 00 00
 r fetch 0 1000 f d0000f
 r gdt 0 1004 c 270000
 r+ gdt 2 1008 3 3456
 r+ gdt 0 1008 c 82120000
 r+ gdt 2 100c 3 0
 after eip=1003 ldtr=8:123456:27:82:0
";
