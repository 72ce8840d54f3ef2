//! Runs of two processors with three tasks between them.
ghost use Rattle.std.specs.Prelude.{IfOk};
ghost use Rattle.m386_image.specs.Format.{IsValid};

use crate::shown::is_clean_with_a_switch;
use m386_core::order::Order;
use m386_image::image::Image;
use m386_image::reading::read_image;
use std::alloc::Global;
use std::test::Fail;

/// The header of two processors, which start in the tasks 0018 and 0020, over 32,768 bytes: the GDT from 1000h to 102Fh, no
/// IDT, and seven sections.
const HEADER: [u8; 64] = [
    0x4d, 0x33, 0x38, 0x36, 0x01, 0x00, 0x02, 0x03, 0x00, 0x80, 0x00, 0x00, 0x00, 0x10, 0x00, 0x00,
    0x2f, 0x00, 0x00, 0x00, 0x00, 0x00, 0x00, 0x00, 0x00, 0x00, 0x00, 0x00, 0x07, 0x00, 0x00, 0x00,
    0x18, 0x00, 0x00, 0x00, 0x20, 0x00, 0x00, 0x00, 0x00, 0x00, 0x00, 0x00, 0x00, 0x00, 0x00, 0x00,
    0x00, 0x00, 0x00, 0x00, 0x00, 0x00, 0x00, 0x00, 0x00, 0x00, 0x00, 0x00, 0x00, 0x00, 0x00, 0x00,
];

/// The GDT behind its null descriptor: code, data, and the TSSs 0018, 0020 and 0028 at 3000h, 3080h and 3100h.
const TABLE: [u8; 40] = [
    0xff, 0xff, 0x00, 0x00, 0x00, 0x9a, 0xcf, 0x00, 0xff, 0xff, 0x00, 0x00, 0x00, 0x92, 0xcf, 0x00,
    0x67, 0x00, 0x00, 0x30, 0x00, 0x89, 0x00, 0x00, 0x67, 0x00, 0x80, 0x30, 0x00, 0x89, 0x00, 0x00,
    0x67, 0x00, 0x00, 0x31, 0x00, 0x89, 0x00, 0x00,
];

/// JMP to the task 0028, and to 0020, which processor 1 holds.
const JUMP: [u8; 7] = [0xea, 0x00, 0x00, 0x00, 0x00, 0x28, 0x00];

const JUMP_TO_HELD: [u8; 7] = [0xea, 0x00, 0x00, 0x00, 0x00, 0x20, 0x00];

/// HLT.
const HALT: [u8; 1] = [0xf4];

/// What a TSS has from its EIP on to its DS, for code at 4000h and a few bytes behind: EIP, EFLAGS, ESP 5000h, CS, SS and DS.
fn fields(eip: u8) -> [u8; 56] {
    let mut bytes = [0; 56];
    bytes[0] = eip;
    bytes[1] = 0x40;
    bytes[4] = 0x02;
    bytes[25] = 0x50;
    bytes[44] = 0x08;
    bytes[48] = 0x10;
    bytes[52] = 0x10;
    bytes
}

/// Adds a section: its place, its length and its bytes.
fn push_section(file: &mut Vec<u8>, place: u32, bytes: &[u8]) -> Result<(), Fail> {
    let Ok(length) = u32::try_from(bytes.len()) else {
        return Err(Fail::new("a long section"));
    };
    file.extend_from_slice(&place.to_le_bytes())?;
    file.extend_from_slice(&length.to_le_bytes())?;
    file.extend_from_slice(bytes)?;
    Ok(())
}

/// The file of an image in which processor 0 finds this code in its task at 4000h, and the others halt.
fn file_with(alloc: Global, code: &[u8]) -> Result<Vec<u8>, Fail> {
    let mut file = Vec::from_slice(alloc, &HEADER)?;
    push_section(&mut file, 0x1008, &TABLE)?;
    for (place, eip) in [(0x3020, 0), (0x30a0, 0x10), (0x3120, 0x20)] {
        push_section(&mut file, place, &fields(eip))?;
    }
    push_section(&mut file, 0x4000, code)?;
    for place in [0x4010, 0x4020] {
        push_section(&mut file, place, &HALT)?;
    }
    Ok(file)
}

/// That image.
fn image_with(alloc: Global, code: &[u8]) -> Result<Image, Fail>
    ensures { IfOk result IsValid }
{
    let file = file_with(alloc, code)?;
    Ok(read_image(alloc, &file)?)
}

#[test]
fn a_jump_to_a_task_is_a_switch_of_a_clean_run(rt: HostRuntime) -> Result<(), Fail> {
    let rows = [
        (JUMP.as_slice(), true),
        (JUMP_TO_HELD.as_slice(), false),
        (HALT.as_slice(), false),
    ];
    for (code, wanted) in rows {
        let image = image_with(rt.alloc(), code)?;
        assert!(rt; image.cpus >= 2);
        for order in [Order::Round, Order::Seed(0), Order::Seed(1)] {
            assert_eq!(rt;
                is_clean_with_a_switch(rt.alloc(), &image, 3, &order),
                Ok(wanted),
                "{order:?}"
            );
        }
    }
    Ok(())
}
