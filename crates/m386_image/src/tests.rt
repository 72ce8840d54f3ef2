use crate::fault::{ImageFault, ReadStop};
use crate::image::{Image, Planned, TableAt};
use crate::laws::{one_image, read_back};
use crate::reading::read_image;
use crate::writing::{text_of, write_image};
use m386_base::list::List;
use std::alloc::{AllocError, Global};
use std::test::Fail;

/// One bare processor, 16,384 bytes of memory, and a section of 11 bytes where the processor starts.
const BARE: [u8; 83] = [
    0x4d, 0x33, 0x38, 0x36, 0x01, 0x00, 0x01, 0x00, 0x00, 0x40, 0x00, 0x00, 0x00, 0x00, 0x00, 0x00,
    0x00, 0x00, 0x00, 0x00, 0x00, 0x00, 0x00, 0x00, 0x00, 0x00, 0x00, 0x00, 0x01, 0x00, 0x00, 0x00,
    0x00, 0x10, 0x00, 0x00, 0x00, 0x00, 0x00, 0x00, 0x00, 0x00, 0x00, 0x00, 0x00, 0x00, 0x00, 0x00,
    0x00, 0x00, 0x00, 0x00, 0x00, 0x00, 0x00, 0x00, 0x00, 0x00, 0x00, 0x00, 0x00, 0x00, 0x00, 0x00,
    0x00, 0x10, 0x00, 0x00, 0x0b, 0x00, 0x00, 0x00, 0xb8, 0x78, 0x56, 0x34, 0x12, 0xa3, 0x00, 0x20,
    0x00, 0x00, 0xf4,
];

/// The first bytes of `BARE`, with some of them replaced, and further bytes behind them.
fn edited(
    alloc: Global,
    keep: usize,
    edits: &[(usize, u8)],
    more: &[u8],
) -> Result<Vec<u8>, AllocError> {
    let mut bytes = Vec::from_slice(alloc, &BARE)?;
    bytes.truncate(keep);
    for &(place, byte) in edits {
        if place < bytes.len() {
            bytes[place] = byte;
        }
    }
    bytes.extend_from_slice(more)?;
    Ok(bytes)
}

#[test]
fn reads_an_image_and_writes_it_back(rt: HostRuntime) -> Result<(), Fail> {
    one_image(&BARE);
    let read = read_image(rt.alloc(), &BARE)?;
    let at = TableAt { base: 0, limit: 0 };
    assert_eq!(rt; (read.memory, read.cpus, read.flags), (16_384, 1, 0));
    assert_eq!(rt; (read.gdt, read.idt), (at, at));
    assert_eq!(rt; read.starts, [0x1000, 0, 0, 0, 0, 0, 0, 0]);
    assert_eq!(rt;
        (read.plan.as_slice().len(), read.sections.as_slice().len()),
        (0, 1)
    );
    for section in read.sections.as_slice() {
        assert_eq!(rt; section.addr, 0x1000);
        assert_eq!(rt; section.bytes.as_slice(), &BARE[72..]);
    }
    let image = read_back(rt.alloc(), &read)?;
    assert_eq!(rt;
        write_image(rt.alloc(), &image)?.as_slice(),
        BARE.as_slice()
    );
    Ok(())
}

/// How many of the first bytes of `BARE` are kept, which are replaced, what stands behind them, and the fault.
static FAULTY: [(usize, &[(usize, u8)], &[u8], ImageFault); 68] = [
    (63, &[], &[], ImageFault::ShortHeader),
    (63, &[(0, 0)], &[], ImageFault::ShortHeader),
    (83, &[(3, 0x37)], &[], ImageFault::Magic),
    (83, &[(3, 0x37), (4, 2)], &[], ImageFault::Magic),
    (83, &[(4, 2)], &[], ImageFault::Version),
    (83, &[(5, 1), (9, 0)], &[], ImageFault::Version),
    (83, &[(9, 0)], &[], ImageFault::MemorySize),
    (83, &[(8, 1)], &[], ImageFault::MemorySize),
    (
        83,
        &[(9, 0x10), (11, 1), (6, 0)],
        &[],
        ImageFault::MemorySize,
    ),
    (83, &[(6, 0)], &[], ImageFault::Processors),
    (83, &[(6, 9), (7, 1)], &[], ImageFault::Processors),
    (83, &[(7, 3)], &[], ImageFault::Flags),
    (82, &[(7, 0x80)], &[], ImageFault::Flags),
    (82, &[], &[], ImageFault::Truncated),
    (83, &[(28, 2)], &[], ImageFault::Truncated),
    (83, &[(24, 1)], &[], ImageFault::Truncated),
    (83, &[(24, 1), (28, 0)], &[], ImageFault::PlanOrder),
    (83, &[(64, 0xf6), (65, 0x3f)], &[], ImageFault::Section),
    (83, &[(64, 0xf6), (65, 0x3f)], &[0], ImageFault::Section),
    (
        83,
        &[(28, 2)],
        &[0x0a, 0x10, 0, 0, 0, 0, 0, 0],
        ImageFault::Section,
    ),
    (83, &[], &[0], ImageFault::Trailing),
    (83, &[(28, 0)], &[], ImageFault::Trailing),
    (0, &[], &[], ImageFault::ShortHeader),
    (64, &[(28, 0), (0, 0x4e)], &[], ImageFault::Magic),
    (83, &[(0, 0x6d)], &[], ImageFault::Magic),
    (83, &[(1, 0x34)], &[], ImageFault::Magic),
    (83, &[(2, 0x39)], &[], ImageFault::Magic),
    (83, &[(4, 0)], &[], ImageFault::Version),
    (83, &[(4, 0), (5, 1)], &[], ImageFault::Version),
    (
        83,
        &[(4, 3), (9, 1), (6, 0), (7, 0xff)],
        &[],
        ImageFault::Version,
    ),
    // Memory: nothing, one page less a byte, one and a half, one beyond the most, and the greatest number.
    (83, &[(9, 0x08)], &[], ImageFault::MemorySize),
    (83, &[(8, 0xff), (9, 0x0f)], &[], ImageFault::MemorySize),
    (83, &[(9, 0x18)], &[], ImageFault::MemorySize),
    (83, &[(9, 0), (10, 0), (11, 2)], &[], ImageFault::MemorySize),
    (
        83,
        &[(9, 0xf0), (10, 0xff), (11, 0xff)],
        &[],
        ImageFault::MemorySize,
    ),
    (83, &[(6, 9)], &[], ImageFault::Processors),
    (83, &[(6, 0xff), (28, 2)], &[], ImageFault::Processors),
    (83, &[(7, 2)], &[], ImageFault::Flags),
    // A bit of the first processor that there is not, and of the last; the highest flag bits of seven processors and of six.
    (83, &[(6, 2), (7, 4)], &[], ImageFault::Flags),
    (83, &[(6, 3), (7, 8)], &[], ImageFault::Flags),
    (83, &[(6, 4), (7, 0x10)], &[], ImageFault::Flags),
    (83, &[(6, 5), (7, 0x20)], &[], ImageFault::Flags),
    (83, &[(6, 6), (7, 0x40)], &[], ImageFault::Flags),
    (83, &[(6, 7), (7, 0x80)], &[], ImageFault::Flags),
    (83, &[(6, 7), (7, 0xff), (28, 9)], &[], ImageFault::Flags),
    (83, &[(6, 6), (7, 0xbf), (28, 9)], &[], ImageFault::Flags),
    // Flags of all processors are no fault, and the next one is told.
    (82, &[(7, 1)], &[], ImageFault::Truncated),
    (82, &[(6, 7), (7, 0x7f)], &[], ImageFault::Truncated),
    (82, &[(6, 8), (7, 0xff)], &[], ImageFault::Truncated),
    // A plan's entries have eight bytes each, and a section's head has eight.
    (64, &[(24, 1), (28, 0)], &[0; 7], ImageFault::Truncated),
    (
        64,
        &[(24, 1), (28, 0)],
        &[0, 0, 0, 0, 1, 0, 0, 0],
        ImageFault::PlanOrder,
    ),
    (64, &[(24, 2), (28, 0)], &[0; 15], ImageFault::Truncated),
    (64, &[(24, 2), (28, 0)], &[0; 16], ImageFault::PlanOrder),
    (64, &[(24, 1), (28, 0)], &[0; 9], ImageFault::Trailing),
    (
        64,
        &[(24, 1)],
        &[0, 0, 0, 0, 1, 0, 0, 0, 0x00, 0x40, 0, 0, 0x01, 0, 0, 0, 9],
        ImageFault::PlanOrder,
    ),
    (
        64,
        &[(24, 0), (27, 0x20), (28, 0)],
        &[0; 16],
        ImageFault::Truncated,
    ),
    (64, &[(28, 1)], &[0; 7], ImageFault::Truncated),
    (64, &[(28, 0), (31, 0x80)], &[0; 16], ImageFault::Truncated),
    (71, &[], &[], ImageFault::Truncated),
    (83, &[(71, 0x80)], &[], ImageFault::Truncated),
    (83, &[(69, 1)], &[], ImageFault::Truncated),
    // A section that ends one byte past memory, or far past, or begins one byte below the end of that before it.
    (83, &[(66, 1)], &[], ImageFault::Section),
    (
        83,
        &[(64, 0xff), (65, 0xff), (66, 0xff), (67, 0xff)],
        &[],
        ImageFault::Section,
    ),
    (
        83,
        &[(28, 2)],
        &[0x0a, 0x10, 0, 0, 1, 0, 0, 0, 7],
        ImageFault::Section,
    ),
    (
        83,
        &[(28, 2)],
        &[0x00, 0x10, 0, 0, 0, 0, 0, 0, 9],
        ImageFault::Section,
    ),
    (
        83,
        &[(28, 2)],
        &[0x01, 0x40, 0, 0, 0, 0, 0, 0],
        ImageFault::Section,
    ),
    (64, &[(28, 0)], &[0], ImageFault::Trailing),
    (83, &[], &[0, 0x20, 0, 0, 0, 0, 0, 0], ImageFault::Trailing),
];

/// Plans of two processors: how many entries, their bytes, and the fault: each is of a processor that there is, and comes behind the
/// one before it by processor, and then by step.
static PLANS: [(u8, &[u8], Option<ReadStop>); 12] = [
    (1, &[0, 0, 0, 0, 0, 0, 0, 0], None),
    (1, &[0xff, 0xff, 0xff, 0xff, 1, 0xff, 0, 0], None),
    (
        1,
        &[0, 0, 0, 0, 2, 0, 0, 0],
        Some(ReadStop::Bad(ImageFault::PlanOrder)),
    ),
    (
        1,
        &[0, 0, 0, 0, 0xff, 0, 0, 0],
        Some(ReadStop::Bad(ImageFault::PlanOrder)),
    ),
    (2, &[1, 0, 0, 0, 0, 7, 0, 0, 2, 0, 0, 0, 0, 7, 0, 0], None),
    (
        2,
        &[1, 0, 0, 0, 0, 7, 0, 0, 1, 0, 0, 0, 0, 8, 0, 0],
        Some(ReadStop::Bad(ImageFault::PlanOrder)),
    ),
    (
        2,
        &[2, 0, 0, 0, 0, 7, 0, 0, 1, 0, 0, 0, 0, 8, 0, 0],
        Some(ReadStop::Bad(ImageFault::PlanOrder)),
    ),
    (
        2,
        &[0, 0, 0, 0x80, 0, 7, 0, 0, 0, 0, 0, 0, 1, 7, 0, 0],
        None,
    ),
    (
        2,
        &[0, 0, 0, 0, 1, 7, 0, 0, 9, 0, 0, 0, 0, 7, 0, 0],
        Some(ReadStop::Bad(ImageFault::PlanOrder)),
    ),
    (
        2,
        &[0xff, 0, 0, 0, 0, 7, 0, 0, 0, 1, 0, 0, 0, 7, 0, 0],
        None,
    ),
    (
        2,
        &[0, 1, 0, 0, 0, 7, 0, 0, 0xff, 0, 0, 0, 0, 7, 0, 0],
        Some(ReadStop::Bad(ImageFault::PlanOrder)),
    ),
    (
        3,
        &[
            0, 0, 0, 0, 0, 7, 0, 0, 0, 0, 0, 0, 1, 7, 0, 0, 0, 0, 0, 0, 2, 7, 0, 0,
        ],
        Some(ReadStop::Bad(ImageFault::PlanOrder)),
    ),
];

#[test]
fn a_plan_rises_by_processor_and_step(rt: HostRuntime) -> Result<(), Fail> {
    for (count, entries, fault) in PLANS.iter().copied() {
        let bytes = edited(rt.alloc(), 64, &[(6, 2), (24, count), (28, 0)], entries)?;
        let stop = read_image(rt.alloc(), &bytes).err();
        assert_eq!(rt; stop, fault, "{entries:?}");
    }
    Ok(())
}

/// Two entries, whose last two bytes are ignored, and a section behind them.
const PLANNED: [u8; 25] = [
    0x01, 0x02, 0x03, 0x04, 0x00, 0x61, 0x72, 0x83, 0x05, 0x06, 0x07, 0x08, 0x01, 0x94, 0xa5, 0xb6,
    0x00, 0x20, 0x00, 0x00, 0x01, 0x00, 0x00, 0x00, 0xf4,
];

/// The same with zeros where bytes are ignored.
const PLANNED_AND_CLEARED: [u8; 25] = [
    0x01, 0x02, 0x03, 0x04, 0x00, 0x61, 0x00, 0x00, 0x05, 0x06, 0x07, 0x08, 0x01, 0x94, 0x00, 0x00,
    0x00, 0x20, 0x00, 0x00, 0x01, 0x00, 0x00, 0x00, 0xf4,
];

#[test]
fn each_field_of_an_entry_has_its_place(rt: HostRuntime) -> Result<(), Fail> {
    let bytes = edited(rt.alloc(), 64, &[(6, 2), (24, 2)], &PLANNED)?;
    let image = read_image(rt.alloc(), &bytes)?;
    let wanted = [
        Planned {
            step: 0x0403_0201,
            cpu: 0,
            vector: 0x61,
        },
        Planned {
            step: 0x0807_0605,
            cpu: 1,
            vector: 0x94,
        },
    ];
    assert_eq!(rt; image.plan.as_slice(), wanted.as_slice());
    assert_eq!(rt; image.sections.as_slice().len(), 1);
    let again = read_back(rt.alloc(), &image)?;
    let written = write_image(rt.alloc(), &again)?;
    let cleared = edited(rt.alloc(), 64, &[(6, 2), (24, 2)], &PLANNED_AND_CLEARED)?;
    assert_eq!(rt; written.as_slice(), cleared.as_slice());
    Ok(())
}

#[test]
fn tells_the_first_fault(rt: HostRuntime) -> Result<(), Fail> {
    for (keep, edits, more, fault) in FAULTY.iter().copied() {
        let bytes = edited(rt.alloc(), keep, edits, more)?;
        let stop = read_image(rt.alloc(), &bytes).err();
        assert_eq!(rt;
            stop,
            Some(ReadStop::Bad(fault)),
            "{} {}",
            fault.number(),
            fault.name()
        );
    }
    Ok(())
}

#[test]
fn takes_the_limits(rt: HostRuntime) -> Result<(), Fail> {
    // The edits, what stands behind them, and the memory, the processors and how many sections are read.
    let rows: [(&[(usize, u8)], &[u8], u32, u8, usize); 10] = [
        (&[(64, 0xf5), (65, 0x3f)], &[], 16_384, 1, 1),
        (&[(28, 2)], &[0x0b, 0x10, 0, 0, 0, 0, 0, 0], 16_384, 1, 2),
        (&[(28, 2)], &[0, 0x40, 0, 0, 0, 0, 0, 0], 16_384, 1, 2),
        (&[(36, 0xff), (63, 0xff)], &[], 16_384, 1, 1),
        (&[(9, 0x10), (64, 0), (65, 0)], &[], 4_096, 1, 1),
        (&[(9, 0x20)], &[], 8_192, 1, 1),
        (&[(9, 0x50)], &[], 20_480, 1, 1),
        (&[(9, 0), (11, 1)], &[], 16_777_216, 1, 1),
        (&[(9, 0xf0), (10, 0xff)], &[], 16_773_120, 1, 1),
        (
            &[(9, 0x10), (64, 0), (65, 0), (28, 2)],
            &[0xf0, 0x0f, 0, 0, 0, 0, 0, 0],
            4_096,
            1,
            2,
        ),
    ];
    for (edits, more, memory, cpus, sections) in rows {
        let bytes = edited(rt.alloc(), 83, edits, more)?;
        let image = read_image(rt.alloc(), &bytes)?;
        assert_eq!(rt;
            (image.memory, image.cpus, image.sections.as_slice().len()),
            (memory, cpus, sections),
            "{memory} bytes"
        );
        assert_eq!(rt; image.starts, [0x1000, 0, 0, 0, 0, 0, 0, 0]);
    }
    Ok(())
}

/// Each number of the header by itself, of eight processors and of two sections.
const APART: [u8; 89] = [
    0x4d, 0x33, 0x38, 0x36, 0x01, 0x00, 0x08, 0x00, 0x00, 0xa0, 0x10, 0x00, 0x21, 0x32, 0x43, 0x54,
    0x65, 0x76, 0x87, 0x98, 0xa9, 0xba, 0xcb, 0xdc, 0x00, 0x00, 0x00, 0x00, 0x02, 0x00, 0x00, 0x00,
    0x01, 0x02, 0x03, 0x04, 0x05, 0x06, 0x07, 0x08, 0x09, 0x0a, 0x0b, 0x0c, 0x0d, 0x0e, 0x0f, 0x10,
    0x11, 0x12, 0x13, 0x14, 0x15, 0x16, 0x17, 0x18, 0x19, 0x1a, 0x1b, 0x1c, 0x1d, 0x1e, 0x1f, 0x20,
    0x34, 0x12, 0x00, 0x00, 0x02, 0x00, 0x00, 0x00, 0xe1, 0xe2, 0x78, 0x56, 0x10, 0x00, 0x07, 0x00,
    0x00, 0x00, 0xd1, 0xd2, 0xd3, 0xd4, 0xd5, 0xd6, 0xd7,
];

#[test]
fn each_number_has_its_place(rt: HostRuntime) -> Result<(), Fail> {
    let image = read_image(rt.alloc(), &APART)?;
    assert_eq!(rt;
        (image.memory, image.cpus, image.flags),
        (0x0010_a000, 8, 0)
    );
    assert_eq!(rt; (image.gdt.base, image.gdt.limit), (0x5443_3221, 0x7665));
    assert_eq!(rt; (image.idt.base, image.idt.limit), (0xdccb_baa9, 0x9887));
    assert_eq!(rt;
        image.starts,
        [
            0x0403_0201,
            0x0807_0605,
            0x0c0b_0a09,
            0x100f_0e0d,
            0x1413_1211,
            0x1817_1615,
            0x1c1b_1a19,
            0x201f_1e1d
        ]
    );
    let wanted: [(u32, &[u8]); 2] = [
        (0x1234, &[0xe1, 0xe2]),
        (0x0010_5678, &[0xd1, 0xd2, 0xd3, 0xd4, 0xd5, 0xd6, 0xd7]),
    ];
    assert_eq!(rt; image.sections.as_slice().len(), 2);
    for (section, (addr, bytes)) in image.sections.as_slice().iter().zip(wanted) {
        assert_eq!(rt; section.addr, addr);
        assert_eq!(rt; section.bytes.as_slice(), bytes);
    }
    Ok(())
}

#[test]
fn each_number_is_written_to_its_place(rt: HostRuntime) -> Result<(), Fail> {
    let read = read_image(rt.alloc(), &APART)?;
    let image = read_back(rt.alloc(), &read)?;
    let written = write_image(rt.alloc(), &image)?;
    assert_eq!(rt; written.as_slice(), APART.as_slice());
    Ok(())
}

#[test]
fn a_processor_starts_in_a_task_by_its_bit(rt: HostRuntime) -> Result<(), Fail> {
    // The flags, and where the eight processors of `APART` start: by the whole word, or by a selector in its low half.
    let rows: [(u8, [u32; 8]); 4] = [
        (
            0x01,
            [
                0x0201,
                0x0807_0605,
                0x0c0b_0a09,
                0x100f_0e0d,
                0x1413_1211,
                0x1817_1615,
                0x1c1b_1a19,
                0x201f_1e1d,
            ],
        ),
        (
            0x80,
            [
                0x0403_0201,
                0x0807_0605,
                0x0c0b_0a09,
                0x100f_0e0d,
                0x1413_1211,
                0x1817_1615,
                0x1c1b_1a19,
                0x1e1d,
            ],
        ),
        (
            0x5a,
            [
                0x0403_0201,
                0x0605,
                0x0c0b_0a09,
                0x0e0d,
                0x1211,
                0x1817_1615,
                0x1a19,
                0x201f_1e1d,
            ],
        ),
        (
            0xff,
            [
                0x0201, 0x0605, 0x0a09, 0x0e0d, 0x1211, 0x1615, 0x1a19, 0x1e1d,
            ],
        ),
    ];
    for (flags, starts) in rows {
        let mut bytes = Vec::from_slice(rt.alloc(), &APART)?;
        bytes[7] = flags;
        let image = read_image(rt.alloc(), &bytes)?;
        assert_eq!(rt; image.flags, flags);
        assert_eq!(rt; image.starts, starts);
        let written = write_image(rt.alloc(), &image)?;
        let again = read_image(rt.alloc(), &written)?;
        assert_eq!(rt; again.flags, flags);
        assert_eq!(rt; again.starts, starts);
    }
    Ok(())
}

#[test]
fn an_image_that_isnt_valid_has_a_text(rt: HostRuntime) -> Result<(), Fail> {
    let at = TableAt { base: 0, limit: 0 };
    let image = Image {
        memory: 16_384,
        cpus: 1,
        flags: 2,
        gdt: at,
        idt: at,
        starts: [0x1000, 0, 0, 0, 0, 0, 0, 0],
        plan: List::new(rt.alloc()),
        sections: List::new(rt.alloc()),
    };
    let text = text_of(rt.alloc(), &image)?;
    let wanted = edited(rt.alloc(), 64, &[(7, 2), (28, 0)], &[])?;
    assert_eq!(rt; text.as_slice(), wanted.as_slice());
    let stop = read_image(rt.alloc(), &text).err();
    assert_eq!(rt; stop, Some(ReadStop::Bad(ImageFault::Flags)));
    Ok(())
}

#[test]
fn faults_have_numbers_and_names(rt: HostRuntime) {
    for (fault, number, name) in [
        (ImageFault::ShortHeader, 1, "ShortHeader"),
        (ImageFault::Magic, 2, "Magic"),
        (ImageFault::Version, 3, "Version"),
        (ImageFault::MemorySize, 4, "MemorySize"),
        (ImageFault::Processors, 5, "Processors"),
        (ImageFault::Flags, 6, "Flags"),
        (ImageFault::Truncated, 7, "Truncated"),
        (ImageFault::PlanOrder, 8, "PlanOrder"),
        (ImageFault::Section, 9, "Section"),
        (ImageFault::Trailing, 10, "Trailing"),
    ] {
        assert_eq!(rt; (fault.number(), fault.name()), (number, name));
    }
}
