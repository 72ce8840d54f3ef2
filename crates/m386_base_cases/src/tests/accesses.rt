//! Worked cases of accesses, of the bus of listed values and of the small types.
ghost use Rattle.std.specs.Prelude.{◌≡◌, false};
ghost use Rattle.m386_base.specs.declared.ask.Role.TheVariants as roles;
ghost use Rattle.m386_base.specs.declared.ask.Space.TheVariants as spaces;

use m386_base::ask::{Ask, Role, Space, answered};
use m386_base::bus::Bus;
use m386_base::desc::Desc;
use m386_base::fault::Stop;
use m386_base::laws::access_laws;
use m386_base::list::List;
use m386_base::probe::ProbeBus;
use m386_base::split::{Piece, gather, mask_of, split, spread};
use std::test::Fail;

fn piece(addr: u32, enables: u8, place: u8) -> Piece
    ensures { result ≡ record { addr = addr; enables = enables; place = place } }
{
    Piece {
        addr,
        enables,
        place,
    }
}

/// An address of a group, its enables and the place of its first byte in the access.
type Group = (u32, u8, u8);

/// A space, an address and a length, and the one or two groups that an access to them has.
static ACCESSES: [(Space, u32, u8, Group, Option<Group>); 22] = [
    (Space::Memory, 0x2000, 1, (0x2000, 1, 0), None),
    (Space::Memory, 0x2000, 2, (0x2000, 3, 0), None),
    (Space::Memory, 0x2000, 4, (0x2000, 15, 0), None),
    (Space::Memory, 0x2001, 1, (0x2000, 2, 0), None),
    (Space::Memory, 0x2001, 2, (0x2000, 6, 0), None),
    (
        Space::Memory,
        0x2001,
        4,
        (0x2000, 14, 0),
        Some((0x2004, 1, 3)),
    ),
    (Space::Memory, 0x2002, 1, (0x2000, 4, 0), None),
    (Space::Memory, 0x2002, 2, (0x2000, 12, 0), None),
    (
        Space::Memory,
        0x2002,
        4,
        (0x2000, 12, 0),
        Some((0x2004, 3, 2)),
    ),
    (Space::Memory, 0x2003, 1, (0x2000, 8, 0), None),
    (
        Space::Memory,
        0x2003,
        2,
        (0x2000, 8, 0),
        Some((0x2004, 1, 1)),
    ),
    (
        Space::Memory,
        0x2003,
        4,
        (0x2000, 8, 0),
        Some((0x2004, 7, 1)),
    ),
    (
        Space::Memory,
        0xffff,
        2,
        (0xfffc, 8, 0),
        Some((0x1_0000, 1, 1)),
    ),
    (Space::Memory, 0x1_2345, 1, (0x1_2344, 2, 0), None),
    (Space::Memory, 0xffff_ffff, 1, (0xffff_fffc, 8, 0), None),
    (
        Space::Memory,
        0xffff_ffff,
        4,
        (0xffff_fffc, 8, 0),
        Some((0, 7, 1)),
    ),
    (
        Space::Memory,
        0xffff_fffd,
        4,
        (0xffff_fffc, 14, 0),
        Some((0, 1, 3)),
    ),
    (Space::Port, 0xffff, 2, (0xfffc, 8, 0), Some((0, 1, 1))),
    (Space::Port, 0xfffd, 4, (0xfffc, 14, 0), Some((0, 1, 3))),
    (Space::Port, 0xffff, 1, (0xfffc, 8, 0), None),
    (Space::Port, 0x1_0003, 2, (0, 8, 0), Some((4, 1, 1))),
    (Space::Port, 0x3f9, 1, (0x3f8, 2, 0), None),
];

/// The address, the enables and the place of a group.
fn numbers(piece: &Piece) -> Group {
    (piece.addr, piece.enables, piece.place)
}

#[test]
fn an_access_has_one_or_two_groups(rt: HostRuntime) {
    access_laws();
    for (space, addr, len, first, second) in ACCESSES.iter().copied() {
        assert!(rt; len == 1 || len == 2 || len == 4);
        let groups = split(space, addr, len);
        assert_eq!(rt;
            groups.first().map(numbers),
            Some(first),
            "first of {addr:x}"
        );
        assert_eq!(rt; groups.get(1).map(numbers), second, "second of {addr:x}");
    }
}

#[test]
fn enables_name_the_bytes_of_a_group(rt: HostRuntime) {
    let masks = [
        0,
        0xff,
        0xff00,
        0xffff,
        0x00ff_0000,
        0x00ff_00ff,
        0x00ff_ff00,
        0x00ff_ffff,
        0xff00_0000,
        0xff00_00ff,
        0xff00_ff00,
        0xff00_ffff,
        0xffff_0000,
        0xffff_00ff,
        0xffff_ff00,
        0xffff_ffff,
    ];
    for enables in 0..16u8 {
        assert_eq!(rt; mask_of(enables), masks[enables as usize], "{enables}");
    }
    let read = asked(false, 15, 0);
    assert_eq!(rt; answered(read, 7), Ask { value: 7, ..read });
    let write = asked(true, 15, 5);
    assert_eq!(rt; answered(write, 7), write);
}

#[test]
fn bytes_go_into_a_group_and_out_of_it(rt: HostRuntime) {
    let cases = [
        (15, 0, 0x1234_5678, 0x1234_5678, 0x1234_5678),
        (8, 0, 0x78, 0x7800_0000, 0x78ff_ffff),
        (8, 0, 0x1234_5678, 0x7800_0000, 0x7800_0000),
        (7, 1, 0x1234_5678, 0x0012_3456, 0xff12_3456),
        (14, 0, 0x1234_5678, 0x3456_7800, 0x3456_78ff),
        (1, 3, 0x1234_5678, 0x0000_0012, 0xffff_ff12),
        (12, 0, 0x1234_5678, 0x5678_0000, 0x5678_ffff),
        (3, 2, 0x1234_5678, 0x0000_1234, 0xffff_1234),
    ];
    for (enables, place, value, cycle, answer) in cases {
        assert!(rt; enables < 16 && place < 4);
        let group = piece(0x2000, enables, place);
        assert_eq!(rt; spread(group, value), cycle, "{enables} at {place}");
        assert_eq!(rt;
            gather(group, answer),
            gather(group, cycle),
            "{enables} at {place}"
        );
    }
    assert_eq!(rt;
        gather(piece(0x2000, 8, 0), 0x7800_0000) | gather(piece(0x2004, 7, 1), 0x0012_3456),
        0x1234_5678
    );
}

fn asked(write: bool, enables: u8, value: u32) -> Ask
    ensures { result
        ≡ record { space = spaces.Memory; write = write; joined = false; role = roles.Operand; part = 0; addr = 0x2000; enables = enables; value = value } }
{
    Ask {
        space: Space::Memory,
        write,
        joined: false,
        role: Role::Operand,
        part: 0,
        addr: 0x2000,
        enables,
        value,
    }
}

#[test]
fn listed_values_are_answered_and_then_the_bus_pauses(rt: HostRuntime) {
    let reads = [0x1122_3344, 0xffff_ffff];
    let mut bus = ProbeBus::new(&reads);
    assert_eq!(rt; bus.wanted(), None);
    assert_eq!(rt; bus.cycle(asked(false, 3, 0), false), Ok(0x3344));
    assert_eq!(rt; bus.cycle(asked(true, 1, 5), false), Ok(0));
    let refused = asked(false, 4, 0);
    assert_eq!(rt; bus.cycle(refused, false), Err(Stop::Paused));
    assert_eq!(rt; bus.cycle(asked(false, 8, 0), false), Err(Stop::Paused));
    assert_eq!(rt; bus.made(), 2);
    assert_eq!(rt; bus.wanted(), Some(refused));
    assert_eq!(rt; bus.wanted_last(), Some(asked(false, 8, 0)));
}

#[test]
fn a_list_holds_its_items_and_a_descriptor_its_numbers(rt: HostRuntime) -> Result<(), Fail> {
    let mut list = List::new(rt.alloc());
    assert_eq!(rt; list.as_slice().len(), 0);
    list.push(7)?;
    list.push(8)?;
    assert_eq!(rt; list.as_slice(), [7, 8].as_slice());
    assert_eq!(rt;
        List::of(vec![in rt.alloc(); 5; 2]?).as_slice(),
        [5, 5].as_slice()
    );
    let desc = Desc::new(0x1_0000, 0xf_ffff, 0x9b, 0xc);
    assert_eq!(rt;
        (desc.base, desc.raw_limit, desc.access, desc.flags),
        (0x1_0000, 0xf_ffff, 0x9b, 0xc)
    );
    Ok(())
}
