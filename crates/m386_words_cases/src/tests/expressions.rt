//! Numbers with a sign, and expressions.
use super::{named, only, tokens_of};
use m386_words::expression::{expression_of, signed};
use std::test::Fail;

#[test]
fn an_expression_is_a_number_or_a_name_and_perhaps_a_number(rt: HostRuntime) -> Result<(), Fail> {
    let cases = [
        ("5", Some(only(5))),
        ("-5", Some(only(-5))),
        ("- 5", Some(only(-5))),
        ("x", Some(named("x", 0))),
        ("x+1", Some(named("x", 1))),
        ("x - 0x10", Some(named("x", -16))),
        ("x+-1", Some(named("x", -1))),
        ("x--1", Some(named("x", 1))),
        ("5+3", Some(only(8))),
        ("5-8", Some(only(-3))),
        ("-5+2", Some(only(-3))),
        ("-5-2", Some(only(-7))),
        ("4294967295+4294967295", Some(only(8_589_934_590))),
        ("-4294967295-4294967295", Some(only(-8_589_934_590))),
        ("", None),
        ("+5", None),
        ("-x", None),
        ("--5", None),
        ("x+y", None),
        ("5+x", None),
        ("x+", None),
        ("x+1+1", None),
        ("x 1", None),
        ("x*2", None),
        ("eax", None),
        ("cr0", None),
        ("byte", None),
        ("4294967296", None),
    ];
    for (text, wanted) in cases {
        let tokens = tokens_of(rt.alloc(), text)?;
        assert_eq!(rt; expression_of(tokens.as_slice()), wanted, "{text}");
    }
    Ok(())
}

#[test]
fn a_number_has_one_sign_at_most(rt: HostRuntime) -> Result<(), Fail> {
    let cases = [
        ("5", Some(5)),
        ("-5", Some(-5)),
        ("-4294967295", Some(-4_294_967_295)),
        ("+5", None),
        ("--5", None),
        ("5+1", None),
        ("x", None),
        ("", None),
    ];
    for (text, wanted) in cases {
        let tokens = tokens_of(rt.alloc(), text)?;
        assert_eq!(rt; signed(tokens.as_slice()), wanted, "{text}");
    }
    Ok(())
}
