//! The numbers of exceptions, flags and segment registers, as the manual's tables have them.
use m386_base::exception::{Exception, general_protection, undefined_opcode};
use m386_base::fault::Fault;
use m386_base::flags::{Flag, has_flag, put_flag};
use m386_base::number::Flags;
use m386_base::segments::{CS, DS, ES, FS, GS, SS};

#[test]
fn exceptions_have_their_vectors(rt: HostRuntime) {
    // PRM table 9-1.
    for (exception, vector) in [
        (Exception::DivideError, 0),
        (Exception::Debug, 1),
        (Exception::Breakpoint, 3),
        (Exception::Overflow, 4),
        (Exception::BoundsCheck, 5),
        (Exception::InvalidOpcode, 6),
        (Exception::CoprocessorNotAvailable, 7),
        (Exception::DoubleFault, 8),
        (Exception::InvalidTss, 10),
        (Exception::SegmentNotPresent, 11),
        (Exception::StackFault, 12),
        (Exception::GeneralProtection, 13),
    ] {
        let (plain, coded) = (exception.fault(), exception.coded_fault(0x102));
        assert_eq!(rt; (plain.vector, plain.code), (vector, None));
        assert_eq!(rt; (coded.vector, coded.code), (vector, Some(0x102)));
    }
    let undefined = Fault {
        vector: 6,
        code: None,
    };
    assert_eq!(rt; undefined_opcode(), undefined);
    let protection = Fault {
        vector: 13,
        code: Some(0),
    };
    assert_eq!(rt; general_protection(), protection);
}

#[test]
fn flags_have_their_places(rt: HostRuntime) {
    // PRM figure 2-8: each flag with what EFLAGS is with it alone beside bit 1, and with all others.
    for (flag, alone, others) in [
        (Flag::Carry, 0x0003, 0xffff_fffe),
        (Flag::Parity, 0x0006, 0xffff_fffb),
        (Flag::Adjust, 0x0012, 0xffff_ffef),
        (Flag::Zero, 0x0042, 0xffff_ffbf),
        (Flag::Sign, 0x0082, 0xffff_ff7f),
        (Flag::Trap, 0x0102, 0xffff_feff),
        (Flag::Interrupt, 0x0202, 0xffff_fdff),
        (Flag::Direction, 0x0402, 0xffff_fbff),
        (Flag::Overflow, 0x0802, 0xffff_f7ff),
        (Flag::NestedTask, 0x4002, 0xffff_bfff),
    ] {
        assert_eq!(rt; put_flag(flag, true, Flags(2)), Flags(alone), "{flag:?}");
        assert_eq!(rt; put_flag(flag, false, Flags(alone)), Flags(2), "{flag:?}");
        assert_eq!(rt;
            put_flag(flag, false, Flags(0xffff_ffff)),
            Flags(others),
            "{flag:?}"
        );
        assert!(rt; has_flag(flag, Flags(alone)), "{flag:?}");
        assert!(rt; !has_flag(flag, Flags(others)), "{flag:?}");
    }
}

#[test]
fn segment_registers_have_their_numbers(rt: HostRuntime) {
    // PRM 17.2.1, the codes of a segment register in a ModRM byte.
    assert_eq!(rt; (ES, CS, SS), (0, 1, 2));
    assert_eq!(rt; (DS, FS, GS), (3, 4, 5));
}
