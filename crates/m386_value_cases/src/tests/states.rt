//! The states that processors begin in, number by number.
use m386_base::number::Flags;
use m386_state::proc::{Mode, Proc, start_bare, start_task, unusable};
use m386_state::segment::{Seg, TableReg};

const GDTR: TableReg = TableReg {
    base: 0x4000,
    limit: 0x37,
};

const IDTR: TableReg = TableReg {
    base: 0x5000,
    limit: 0x7ff,
};

/// The selector of a segment, whether it may be used, and its descriptor's base, limit, access byte and flags.
fn numbers(seg: &Seg) -> (u16, bool, u32, u32, u8, u8) {
    let desc = seg.desc;
    (
        seg.selector,
        seg.usable,
        desc.base,
        desc.raw_limit,
        desc.access,
        desc.flags,
    )
}

#[test]
fn a_bare_processor_has_flat_segments(rt: HostRuntime) {
    let p = start_bare(0x1000, GDTR, IDTR);
    let code = (0x0008, true, 0, 0xf_ffff, 0x9b, 0xc);
    let data = (0x0010, true, 0, 0xf_ffff, 0x93, 0xc);
    let none = (0, false, 0, 0, 0, 0);
    let wanted = [data, code, data, data, data, data];
    for (at, want) in wanted.into_iter().enumerate() {
        assert_eq!(rt; p.segs.get(at).map(numbers), Some(want), "segment {at}");
    }
    assert_eq!(rt; (numbers(&p.ldtr), numbers(&p.tr)), (none, none));
    assert_eq!(rt; p.regs, [0; 8]);
    assert_eq!(rt;
        (p.eip, p.eflags, p.cr0, p.mode),
        (0x1000, Flags(2), 1, Mode::Running)
    );
    assert_eq!(rt; (p.gdtr, p.idtr), (GDTR, IDTR));
    assert_eq!(rt;
        (p.pending, p.shadow, p.request, p.start),
        (None, false, None, None)
    );
    assert_eq!(rt; (p.cpl(), p.flag_bits(), p.cr0_bits()), (0, 0x7fd5, 0xf));
}

#[test]
fn a_task_processor_has_no_segment_yet(rt: HostRuntime) {
    let p = start_task(0x28, GDTR, IDTR);
    let none = (0, false, 0, 0, 0, 0);
    assert_eq!(rt; numbers(&unusable(0x2b)), (0x2b, false, 0, 0, 0, 0));
    for at in 0..6 {
        assert_eq!(rt; p.segs.get(at).map(numbers), Some(none), "segment {at}");
    }
    assert_eq!(rt; (numbers(&p.ldtr), numbers(&p.tr)), (none, none));
    assert_eq!(rt; p.regs, [0; 8]);
    assert_eq!(rt;
        (p.eip, p.eflags, p.cr0, p.mode),
        (0, Flags(2), 1, Mode::Running)
    );
    assert_eq!(rt; (p.gdtr, p.idtr), (GDTR, IDTR));
    assert_eq!(rt;
        (p.pending, p.shadow, p.request, p.start),
        (None, false, None, Some(0x28))
    );
}

#[test]
fn the_privilege_is_the_rpl_of_cs(rt: HostRuntime) {
    for (selector, want) in [(0x0008, 0), (0x0009, 1), (0x000e, 2), (0xffff, 3), (0, 0)] {
        let mut p: Proc = start_bare(0, GDTR, IDTR);
        p.segs[1].selector = selector;
        assert_eq!(rt; p.cpl(), want, "{selector:x}");
    }
}
