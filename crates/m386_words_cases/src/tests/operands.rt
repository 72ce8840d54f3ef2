//! Operands.
use super::{named, only, tokens_of};
use m386_base::number::Width;
use m386_words::expression::Expression;
use m386_words::name::SizeWord;
use m386_words::operand::{Place, Written, operand_of};
use std::test::Fail;

/// A place of a base and what is added.
fn based(base: u8, offset: Expression<'static>) -> Place<'static> {
    Place {
        seg: None,
        base: Some(base),
        index: None,
        scale: 1,
        offset,
    }
}

/// A place of an index with its scale and what is added.
fn indexed(index: u8, scale: u8, offset: Expression<'static>) -> Place<'static> {
    Place {
        seg: None,
        base: None,
        index: Some(index),
        scale,
        offset,
    }
}

/// A place of an expression alone.
fn at(offset: Expression<'static>) -> Place<'static> {
    Place {
        seg: None,
        base: None,
        index: None,
        scale: 1,
        offset,
    }
}

/// A place in a segment.
fn within(seg: u8, place: Place<'static>) -> Place<'static> {
    Place {
        seg: Some(seg),
        ..place
    }
}

#[test]
fn operands_without_memory(rt: HostRuntime) -> Result<(), Fail> {
    let cases = [
        ("eax", Written::General(Width::W32, 0)),
        ("di", Written::General(Width::W16, 7)),
        ("ah", Written::General(Width::W8, 4)),
        ("gs", Written::Segment(5)),
        ("cr0", Written::Control),
        ("0x10", Written::Number(only(16))),
        ("-1", Written::Number(only(-1))),
        ("x", Written::Number(named("x", 0))),
        ("x - 4", Written::Number(named("x", -4))),
        ("EAX", Written::Number(named("EAX", 0))),
        ("8:0x1000", Written::Pointer(only(8), only(4096))),
        ("a+1 : b-1", Written::Pointer(named("a", 1), named("b", -1))),
        ("-1:-2", Written::Pointer(only(-1), only(-2))),
    ];
    for (text, wanted) in cases {
        let tokens = tokens_of(rt.alloc(), text)?;
        assert_eq!(rt; operand_of(tokens.as_slice()), Some(wanted), "{text}");
    }
    Ok(())
}

#[test]
fn operands_in_memory(rt: HostRuntime) -> Result<(), Fail> {
    let both = Place {
        base: Some(3),
        ..indexed(6, 4, only(0))
    };
    let all = Place {
        base: Some(0),
        ..indexed(1, 8, named("x", -8))
    };
    let cases = [
        ("[]", at(only(0))),
        ("[0x2000]", at(only(0x2000))),
        ("[-4]", at(only(-4))),
        ("[x+4]", at(named("x", 4))),
        ("[ebx]", based(3, only(0))),
        ("[esp]", based(4, only(0))),
        ("[ebp+4]", based(5, only(4))),
        ("[ebp-4]", based(5, only(-4))),
        ("[ebp+-4]", based(5, only(-4))),
        ("[eax+4-1]", based(0, only(3))),
        ("[eax-4+1]", based(0, only(-3))),
        ("[eax+x]", based(0, named("x", 0))),
        ("[ecx*1]", indexed(1, 1, only(0))),
        ("[ecx*2-1]", indexed(1, 2, only(-1))),
        ("[edi*0x4+x]", indexed(7, 4, named("x", 0))),
        ("[ebx+esi*4]", both),
        ("[ eax + ecx * 8 + x - 8 ]", all),
        ("[fs:]", within(4, at(only(0)))),
        ("[es:8]", within(0, at(only(8)))),
        ("[gs:-8]", within(5, at(only(-8)))),
        ("[cs:ebx+esi*4]", within(1, both)),
    ];
    for (text, wanted) in cases {
        let tokens = tokens_of(rt.alloc(), text)?;
        let wanted = Written::Memory(None, wanted);
        assert_eq!(rt; operand_of(tokens.as_slice()), Some(wanted), "{text}");
    }
    Ok(())
}

#[test]
fn a_word_stands_before_memory(rt: HostRuntime) -> Result<(), Fail> {
    let cases = [
        ("byte [eax]", SizeWord::Byte),
        ("word[eax]", SizeWord::Word),
        ("dword [ eax ]", SizeWord::Double),
        ("far [eax]", SizeWord::Far),
    ];
    for (text, size) in cases {
        let tokens = tokens_of(rt.alloc(), text)?;
        let wanted = Written::Memory(Some(size), based(0, only(0)));
        assert_eq!(rt; operand_of(tokens.as_slice()), Some(wanted), "{text}");
    }
    Ok(())
}

/// What is no operand.
const REFUSED: [&str; 41] = [
    "",
    "byte",
    "byte eax",
    "byte 5",
    "byte byte [eax]",
    "near [eax]",
    "eax [eax]",
    "eax ebx",
    "eax+1",
    "-eax",
    "5 5",
    "1:2:3",
    "1:",
    ":1",
    "1:eax",
    "cs:1",
    "[",
    "]",
    "[eax",
    "eax]",
    "[eax]]",
    "[[eax]",
    "[eax]+4",
    "[ax]",
    "[eax+",
    "[cs]",
    "[cr0]",
    "[eax+ecx]",
    "[eax-ecx]",
    "[ecx*4+eax]",
    "[eax+4+ecx*4]",
    "[esp*2]",
    "[eax+esp*1]",
    "[ecx*3]",
    "[ecx*16]",
    "[ecx*x]",
    "[4*ecx]",
    "[eax+]",
    "[eax-x]",
    "[eax:4]",
    "[ds:es:4]",
];

#[test]
fn all_else_is_no_operand(rt: HostRuntime) -> Result<(), Fail> {
    for text in REFUSED {
        let tokens = tokens_of(rt.alloc(), text)?;
        assert_eq!(rt; operand_of(tokens.as_slice()), None, "{text}");
    }
    Ok(())
}
