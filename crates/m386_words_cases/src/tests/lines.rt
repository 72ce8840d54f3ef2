//! What a text and a line consist of.
use super::tokens_of;
use m386_words::part::{Separator, next_part};
use m386_words::text::next_line;
use m386_words::token::{Token, words_of};
use std::test::Fail;

#[test]
fn lines_end_with_a_line_feed(rt: HostRuntime) {
    let first = next_line(b"a\n\nb").map(|split| (split.line, split.rest));
    assert_eq!(rt;
        first,
        Some((b"a".as_slice(), b"\nb".as_slice())),
        "a line and more"
    );
    let empty = next_line(b"\nb").map(|split| (split.line, split.rest));
    assert_eq!(rt;
        empty,
        Some((b"".as_slice(), b"b".as_slice())),
        "an empty line"
    );
    let last = next_line(b"b").map(|split| (split.line, split.rest));
    assert_eq!(rt;
        last,
        Some((b"b".as_slice(), b"".as_slice())),
        "bytes behind the last line feed"
    );
    assert!(rt; next_line(b"").is_none(), "no line behind the end");
    let other = next_line(b"a\rb").map(|split| (split.line, split.rest));
    assert_eq!(rt;
        other,
        Some((b"a\rb".as_slice(), b"".as_slice())),
        "a return is no line feed"
    );
}

/// Lines, and their tokens up to a comment.
const TOKENS: [(&str, &[Token<'static>]); 6] = [
    ("", &[]),
    ("; [", &[]),
    (
        "x:.byte 0x1F",
        &[
            Token::Word(b"x"),
            Token::Colon,
            Token::Word(b".byte"),
            Token::Blank,
            Token::Word(b"0x1F"),
        ],
    ),
    (
        "_9.z\t,[]+-*=;,",
        &[
            Token::Word(b"_9.z"),
            Token::Blank,
            Token::Comma,
            Token::Open,
            Token::Close,
            Token::Plus,
            Token::Minus,
            Token::Star,
            Token::Equals,
        ],
    ),
    (
        "a#b",
        &[Token::Word(b"a"), Token::Strange, Token::Word(b"b")],
    ),
    ("(\u{7f}", &[Token::Strange, Token::Strange]),
];

#[test]
fn a_line_is_words_marks_and_blanks(rt: HostRuntime) -> Result<(), Fail> {
    for (line, wanted) in TOKENS {
        let tokens = words_of(rt.alloc(), line.as_bytes())?;
        assert_eq!(rt; tokens.as_slice(), wanted, "{line}");
    }
    Ok(())
}

#[test]
fn parts_stand_between_separators(rt: HostRuntime) -> Result<(), Fail> {
    let tokens = words_of(rt.alloc(), b"a b,c:")?;
    let cases: [(Separator, &[Token<'static>], Option<usize>); 3] = [
        (Separator::Blank, &[Token::Word(b"a")], Some(4)),
        (
            Separator::Comma,
            &[Token::Word(b"a"), Token::Blank, Token::Word(b"b")],
            Some(2),
        ),
        (
            Separator::Colon,
            &[
                Token::Word(b"a"),
                Token::Blank,
                Token::Word(b"b"),
                Token::Comma,
                Token::Word(b"c"),
            ],
            Some(0),
        ),
    ];
    for (separator, wanted, left) in cases {
        let part = next_part(separator, tokens.as_slice());
        assert_eq!(rt; part.part, wanted, "{separator:?}");
        assert_eq!(rt;
            part.rest.map(<[Token<'_>]>::len),
            left,
            "behind {separator:?}"
        );
    }
    let solid = tokens_of(rt.alloc(), " a\t b ")?;
    assert_eq!(rt;
        solid.as_slice(),
        [Token::Word(b"a"), Token::Word(b"b")].as_slice(),
        "no blanks"
    );
    assert!(rt;
        next_part(Separator::Comma, solid.as_slice()).rest.is_none(),
        "no comma"
    );
    Ok(())
}
