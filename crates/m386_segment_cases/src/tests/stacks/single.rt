//! PUSH and POP of general registers, numbers, memory and, pushed alone, segment registers.
use super::{behind, flat, one, push};
use crate::tests::fetch;

/// PUSH of each kind of operand.
pub(crate) const PUSHES: &str = "\
start esp=1018
PUSH EAX
 bytes 50
 r fetch 0 1000 f 50
 w push 0 1014 f a0a1a2a3
 after eip=1001 esp=1014
PUSH AX
 bytes 66 50
 r fetch 0 1000 f 5066
 w push 0 1014 c a2a30000
 after eip=1002 esp=1016
PUSH EAX, split over two groups
 before esp=1017
 bytes 50
 r fetch 0 1000 f 50
 w push 0 1010 8 a3000000
 w push 1 1014 7 a0a1a2
 after eip=1001 esp=1013
PUSH ESP, which pushes the old one
 bytes 54
 r fetch 0 1000 f 54
 w push 0 1014 f 1018
 after eip=1001 esp=1014
PUSH SP
 bytes 66 54
 r fetch 0 1000 f 5466
 w push 0 1014 c 10180000
 after eip=1002 esp=1016
PUSH 12345678h
 bytes 68 78 56 34 12
 r fetch 0 1000 f 34567868
 r fetch 0 1004 f 12
 w push 0 1014 f 12345678
 after eip=1005 esp=1014
PUSH 5678h, of 16 bits
 bytes 66 68 78 56
 r fetch 0 1000 f 56786866
 w push 0 1014 c 56780000
 after eip=1004 esp=1016
PUSH -2, of a byte
 bytes 6a fe
 r fetch 0 1000 f fe6a
 w push 0 1014 f fffffffe
 after eip=1002 esp=1014
PUSH -2, of a byte, as 16 bits
 bytes 66 6a fe
 r fetch 0 1000 f fe6a66
 w push 0 1014 c fffe0000
 after eip=1003 esp=1016
PUSH [1010h]
 bytes ff 35 10 10 00 00
 r fetch 0 1000 f 101035ff
 r fetch 0 1004 f 0
 r data 0 1010 f 44332211
 w push 0 1014 f 44332211
 after eip=1006 esp=1014
PUSH word [1010h]
 bytes 66 ff 35 10 10 00 00
 r fetch 0 1000 f 1035ff66
 r fetch 0 1004 f 10
 r data 0 1010 3 2211
 w push 0 1014 c 22110000
 after eip=1007 esp=1016
PUSH [ESP], by the old one
 before esp=1014
 bytes ff 34 24
 r fetch 0 1000 f 2434ff
 r data 0 1014 f 88776655
 w push 0 1010 f 88776655
 after eip=1003 esp=1010
PUSH [FFFFFFFEh] on a stack that can't be used: the operand is tested first
 before esp=1010 ss=-0:0:0:0:0
 bytes ff 35 fe ff ff ff
 r fetch 0 1000 f fffe35ff
 r fetch 0 1004 f ffff
 after pending=d:0
PUSH [1010h] on a stack that can't be used: the operand's read stands
 before esp=1010 ss=-0:0:0:0:0
 bytes ff 35 10 10 00 00
 r fetch 0 1000 f 101035ff
 r fetch 0 1004 f 0
 r data 0 1010 f 44332211
 after pending=c:0
";

#[test]
fn segment_registers_are_pushed_with_zeros_above(rt: HostRuntime) {
    let mut p = flat(0x1018);
    let (data, code) = (p.segs[0], p.segs[1]);
    let mut others = [data; 4];
    for (i, other) in others.iter_mut().enumerate() {
        other.selector = 0xf010 + i as u16 * 0x100;
    }
    p.segs = [others[0], code, data, others[1], others[2], others[3]];
    for (name, code, eip, selector) in [
        ("PUSH ES", 0x06, 0x1001, 0xf010),
        ("PUSH CS", 0x0e, 0x1001, 8),
        ("PUSH SS", 0x16, 0x1001, 0x10),
        ("PUSH DS", 0x1e, 0x1001, 0xf110),
        ("PUSH FS", 0xa00f, 0x1002, 0xf210),
        ("PUSH GS", 0xa80f, 0x1002, 0xf310),
    ] {
        let whole = [fetch(0x1000, code), push(0, 0x1014, 15, selector)];
        one(
            &rt,
            name,
            &p,
            &code.to_le_bytes(),
            &whole,
            behind(&p, eip, 0x1014),
        );
        let narrow = code << 8 | 0x66;
        let half = [fetch(0x1000, narrow), push(0, 0x1014, 12, selector << 16)];
        one(
            &rt,
            name,
            &p,
            &narrow.to_le_bytes(),
            &half,
            behind(&p, eip + 1, 0x1016),
        );
    }
}

/// PUSH EAX at the ends of stacks of each kind.
pub(crate) const TESTED_PUSHES: &str = "\
start esp=0
to the first byte of all
 before esp=4
 bytes 50
 r fetch 0 1000 f 50
 w push 0 0 f a0a1a2a3
 after eip=1001 esp=0
from 0 to the last bytes of all
 bytes 50
 r fetch 0 1000 f 50
 w push 0 fffffffc f a0a1a2a3
 after eip=1001 esp=fffffffc
past the last offset of all
 before esp=2
 bytes 50
 r fetch 0 1000 f 50
 after pending=c:0
of 16 bits: the upper half of ESP stays, and is no part of the address
 before esp=7fff1018 ss=18:0:ffff:93:0
 bytes 50
 r fetch 0 1000 f 50
 w push 0 1014 f a0a1a2a3
 after eip=1001 esp=7fff1014
of 16 bits, from 0 to its end
 before esp=7fff0000 ss=18:0:ffff:93:0
 bytes 50
 r fetch 0 1000 f 50
 w push 0 fffc f a0a1a2a3
 after eip=1001 esp=7ffffffc
of 16 bits, past its last offset
 before esp=7fff0002 ss=18:0:ffff:93:0
 bytes 50
 r fetch 0 1000 f 50
 after pending=c:0
of 16 bits, from 0 past a lower limit
 before esp=7fff0000 ss=18:0:fffe:93:0
 bytes 50
 r fetch 0 1000 f 50
 after pending=c:0
to the limit
 before esp=1018 ss=18:0:1017:93:4
 bytes 50
 r fetch 0 1000 f 50
 w push 0 1014 f a0a1a2a3
 after eip=1001 esp=1014
past the limit
 before esp=1018 ss=18:0:1016:93:4
 bytes 50
 r fetch 0 1000 f 50
 after pending=c:0
of 32 bits, from 0 past the limit
 before ss=18:0:ffff:93:4
 bytes 50
 r fetch 0 1000 f 50
 after pending=c:0
that expands down, to the first offset
 before esp=1018 ss=18:0:1013:97:4
 bytes 50
 r fetch 0 1000 f 50
 w push 0 1014 f a0a1a2a3
 after eip=1001 esp=1014
that expands down, at the limit
 before esp=1018 ss=18:0:1014:97:4
 bytes 50
 r fetch 0 1000 f 50
 after pending=c:0
that expands down, from 0 to the last bytes of all
 before ss=18:0:1013:97:4
 bytes 50
 r fetch 0 1000 f 50
 w push 0 fffffffc f a0a1a2a3
 after eip=1001 esp=fffffffc
of 16 bits that expands down, from 0 to its end
 before esp=7fff0000 ss=18:0:1013:97:0
 bytes 50
 r fetch 0 1000 f 50
 w push 0 fffc f a0a1a2a3
 after eip=1001 esp=7ffffffc
of 16 bits that expands down, below its first offset
 before esp=7fff1014 ss=18:0:1013:97:0
 bytes 50
 r fetch 0 1000 f 50
 after pending=c:0
that can't be written
 before esp=1018 ss=18:0:ffff:91:4
 bytes 50
 r fetch 0 1000 f 50
 after pending=c:0
that can't be used
 before esp=1010 ss=-0:0:0:0:0
 bytes 50
 r fetch 0 1000 f 50
 after pending=c:0
with a base
 before esp=18 ss=18:1000:ffff:93:4
 bytes 50
 r fetch 0 1000 f 50
 w push 0 1014 f a0a1a2a3
 after eip=1001 esp=14
with a base whose sum comes round
 before esp=2004 ss=18:fffff014:ffff:93:4
 bytes 50
 r fetch 0 1000 f 50
 w push 0 1014 f a0a1a2a3
 after eip=1001 esp=2000
";

/// POP EAX at the ends of stacks of each kind.
pub(crate) const TESTED_POPS: &str = "\
start esp=1010 ss=18:0:1013:93:4
from the last bytes of all to 0
 before esp=fffffffc ss=10:0:fffff:93:c
 bytes 58
 r fetch 0 1000 f 58
 r pop 0 fffffffc f ffffffff
 after eip=1001 eax=ffffffff esp=0
past the last offset of all
 before esp=fffffffd ss=10:0:fffff:93:c
 bytes 58
 r fetch 0 1000 f 58
 after pending=c:0
of 16 bits: the upper half of ESP stays, and is no part of the address
 before esp=7fff1010 ss=18:0:ffff:93:0
 bytes 58
 r fetch 0 1000 f 58
 r pop 0 1010 f 44332211
 after eip=1001 eax=44332211 esp=7fff1014
of 16 bits, from its end to 0
 before esp=7ffffffc ss=18:0:ffff:93:0
 bytes 58
 r fetch 0 1000 f 58
 r pop 0 fffc f ffffffff
 after eip=1001 eax=ffffffff esp=7fff0000
of 16 bits, past its last offset
 before esp=7ffffffd ss=18:0:ffff:93:0
 bytes 58
 r fetch 0 1000 f 58
 after pending=c:0
to the limit
 bytes 58
 r fetch 0 1000 f 58
 r pop 0 1010 f 44332211
 after eip=1001 eax=44332211 esp=1014
past the limit
 before ss=18:0:1012:93:4
 bytes 58
 r fetch 0 1000 f 58
 after pending=c:0
that expands down, at the first offset
 before ss=18:0:100f:97:4
 bytes 58
 r fetch 0 1000 f 58
 r pop 0 1010 f 44332211
 after eip=1001 eax=44332211 esp=1014
that expands down, at the limit
 before ss=18:0:1010:97:4
 bytes 58
 r fetch 0 1000 f 58
 after pending=c:0
of 16 bits that expands down, past its last offset
 before esp=fffd ss=18:0:100f:97:0
 bytes 58
 r fetch 0 1000 f 58
 after pending=c:0
that can't be written
 before ss=18:0:ffff:91:4
 bytes 58
 r fetch 0 1000 f 58
 r pop 0 1010 f 44332211
 after eip=1001 eax=44332211 esp=1014
that can't be used
 before ss=-0:0:0:0:0
 bytes 58
 r fetch 0 1000 f 58
 after pending=c:0
";

/// POP to each kind of operand.
pub(crate) const POPS: &str = "\
start esp=1010
POP EAX, split over two groups
 before esp=1011
 bytes 58
 r fetch 0 1000 f 58
 r pop 0 1010 e 44332200
 r pop 3 1014 1 55
 after eip=1001 eax=55443322 esp=1015
POP AX
 bytes 66 58
 r fetch 0 1000 f 5866
 r pop 0 1010 3 2211
 after eip=1002 eax=a0a12211 esp=1012
POP ESP, which leaves the value
 bytes 5c
 r fetch 0 1000 f 5c
 r pop 0 1010 f 44332211
 after eip=1001 esp=44332211
POP SP, with the upper half of the moved ESP
 before esp=fffe
 bytes 66 5c
 r fetch 0 1000 f 5c66
 r pop 0 fffc c ffff0000
 after eip=1002 esp=1ffff
POP [1014h]
 bytes 8f 05 14 10 00 00
 r fetch 0 1000 f 1014058f
 r fetch 0 1004 f 0
 r pop 0 1010 f 44332211
 w data 0 1014 f 44332211
 after eip=1006 esp=1014
POP [ESP], by the moved one
 bytes 8f 04 24
 r fetch 0 1000 f 24048f
 r pop 0 1010 f 44332211
 w data 0 1014 f 44332211
 after eip=1003 esp=1014
POP word [ESP]
 bytes 66 8f 04 24
 r fetch 0 1000 f 24048f66
 r pop 0 1010 3 2211
 w data 0 1010 c 22110000
 after eip=1004 esp=1012
POP [ESP], both split over two groups
 before esp=1011
 bytes 8f 04 24
 r fetch 0 1000 f 24048f
 r pop 0 1010 e 44332200
 r pop 3 1014 1 55
 w data 0 1014 e 44332200
 w data 3 1018 1 55
 after eip=1003 esp=1015
";

/// POP to memory that can't be written.
pub(crate) const FAULTS: &str = "\
start esp=1010
POP [FFFFFFFEh], past the last offset
 bytes 8f 05 fe ff ff ff
 r fetch 0 1000 f fffe058f
 r fetch 0 1004 f ffff
 r pop 0 1010 f 44332211
 after pending=d:0
POP CS:[1014h], which can't be written
 bytes 2e 8f 05 14 10 00 00
 r fetch 0 1000 f 14058f2e
 r fetch 0 1004 f 10
 r pop 0 1010 f 44332211
 after pending=d:0
POP [ESP] on a stack that can't be written
 before ss=18:0:ffff:91:4
 bytes 8f 04 24
 r fetch 0 1000 f 24048f
 r pop 0 1010 f 44332211
 after pending=c:0
POP [ESP], past the limit behind the pop
 before ss=18:0:1013:93:4
 bytes 8f 04 24
 r fetch 0 1000 f 24048f
 r pop 0 1010 f 44332211
 after pending=c:0
POP [FFFFFFFEh], whose pop is past the limit
 before ss=18:0:1012:93:4
 bytes 8f 05 fe ff ff ff
 r fetch 0 1000 f fffe058f
 r fetch 0 1004 f ffff
 after pending=c:0
";
