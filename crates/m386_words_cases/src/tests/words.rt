//! Numbers, registers and names.
use m386_base::number::Width;
use m386_words::name::{SizeWord, is_name, size_word};
use m386_words::number::{hex_bytes, number};
use m386_words::register::{register, segment};
use std::test::Fail;

#[test]
fn numbers_have_up_to_32_bits(rt: HostRuntime) {
    let cases = [
        ("0", Some(0)),
        ("9", Some(9)),
        ("10", Some(10)),
        ("4294967295", Some(0xffff_ffff)),
        ("4294967296", None),
        ("42949672950", None),
        ("00", None),
        ("07", None),
        ("0x", None),
        ("0x0", Some(0)),
        ("0xfF", Some(255)),
        ("0x00000000a", Some(10)),
        ("0xffffffff", Some(0xffff_ffff)),
        ("0x100000000", None),
        ("0X1", None),
        ("0xg", None),
        ("1a", None),
        ("1x2", None),
        ("1.5", None),
        ("_1", None),
        ("x", None),
    ];
    for (word, wanted) in cases {
        assert_eq!(rt; number(word.as_bytes()), wanted, "{word}");
    }
}

#[test]
fn two_digits_are_a_byte(rt: HostRuntime) -> Result<(), Fail> {
    let cases: [(&str, Option<&[u8]>); 6] = [
        ("00", Some(&[0])),
        ("0aF1", Some(&[0x0a, 0xf1])),
        ("fffe", Some(&[0xff, 0xfe])),
        ("abc", None),
        ("0g", None),
        ("g0", None),
    ];
    for (word, wanted) in cases {
        let bytes = hex_bytes(rt.alloc(), word.as_bytes())?;
        match bytes {
            Some(bytes) => assert_eq!(rt; Some(bytes.as_slice()), wanted, "{word}"),
            None => assert!(rt; wanted.is_none(), "{word}"),
        }
    }
    Ok(())
}

/// The registers of each width by their numbers (PRM table 17-2), and the segment registers.
const REGISTERS: [(Width, &str); 3] = [
    (Width::W32, "eax ecx edx ebx esp ebp esi edi"),
    (Width::W16, "ax cx dx bx sp bp si di"),
    (Width::W8, "al cl dl bl ah ch dh bh"),
];

#[test]
fn registers_have_their_numbers(rt: HostRuntime) {
    for (width, words) in REGISTERS {
        for (wanted, word) in words.split(' ').enumerate() {
            let number = register(width, word.as_bytes()).map(usize::from);
            assert_eq!(rt; number, Some(wanted), "{word}");
            assert!(rt; segment(word.as_bytes()).is_none(), "{word}");
        }
    }
    for (wanted, word) in "es cs ss ds fs gs".split(' ').enumerate() {
        let number = segment(word.as_bytes()).map(usize::from);
        assert_eq!(rt; number, Some(wanted), "{word}");
    }
    for word in "EAX eaxx ea cr0 ip hs r8".split(' ') {
        assert!(rt; register(Width::W32, word.as_bytes()).is_none(), "{word}");
        assert!(rt; segment(word.as_bytes()).is_none(), "{word}");
    }
    assert!(rt; register(Width::W16, b"eax").is_none(), "of another width");
}

#[test]
fn names_are_what_nothing_else_is(rt: HostRuntime) {
    for word in "a Z _ _9 a_B9 EAX cr1 Byte lock mov x0 ex".split(' ') {
        assert!(rt; is_name(word.as_bytes()), "{word}");
    }
    for word in "9a 0 a.b .a eax sp bh gs cr0 byte word dword far".split(' ') {
        assert!(rt; !is_name(word.as_bytes()), "{word}");
    }
    let sizes = [
        ("byte", Some(SizeWord::Byte)),
        ("word", Some(SizeWord::Word)),
        ("dword", Some(SizeWord::Double)),
        ("far", Some(SizeWord::Far)),
        ("qword", None),
        ("near", None),
        ("BYTE", None),
    ];
    for (word, wanted) in sizes {
        assert_eq!(rt; size_word(word.as_bytes()), wanted, "{word}");
    }
}
