//! Texts that are wrong: each has one case, of NOP at 1000h, or of HLT, which is otherwise in one thing.
use m386_worked::texts::{Wrong, all_made};

/// What a text is told for: the name of its case that comes to something else, or a line that says nothing.
fn told(text: &str) -> Option<&str> {
    match all_made(text) {
        Ok(_) => None,
        Err(Wrong::Case(name, _)) => Some(name),
        Err(Wrong::Line(line)) => Some(line),
    }
}

#[test]
fn what_is_otherwise_is_told(rt: HostRuntime) {
    for (text, wrong) in [
        (
            "right\n bytes 90\n r fetch 0 1000 f 90\n after eip=1001",
            None,
        ),
        (
            "no state\n bytes 90\n r fetch 0 1000 f 90\n after",
            Some("no state"),
        ),
        (
            "another state\n bytes f4\n r fetch 0 1000 f f4\n after eip=1001",
            Some("another state"),
        ),
        (
            "another value\n bytes 90\n r fetch 0 1000 f 91\n after eip=1001",
            Some("another value"),
        ),
        (
            "another role\n bytes 90\n r data 0 1000 f 90\n after eip=1001",
            Some("another role"),
        ),
        ("no cycle\n bytes 90\n after eip=1001", Some("no cycle")),
        (
            "two\n bytes 90\n r fetch 0 1000 f 90\n r fetch 0 1000 f 90\n after eip=1001",
            Some("two"),
        ),
        (
            "no count\n bytes 90\n makes 2\n after eip=1001",
            Some("no count"),
        ),
        (
            "values\n r fetch 0 1000 f f4\n after eip=1001",
            Some("values"),
        ),
        (
            "shut down\n before mode=shutdown\n bytes 90\n after",
            Some("shut down"),
        ),
        (
            "a word\n before eip=1000 ip=1000\n after",
            Some(" before eip=1000 ip=1000"),
        ),
        (
            "a cycle\n r fetch 0 1000 90\n after",
            Some(" r fetch 0 1000 90"),
        ),
        ("a byte\n bytes 190\n after", Some(" bytes 190")),
    ] {
        assert_eq!(rt; told(text), wrong);
    }
}
