//! Tables of words, each with what they ask for: decisions on the words of a call, and what `clap` takes.
use crate::reading::read_words;
use crate::stop::CallStop;
use crate::usage::UsageKind;
use std::alloc::Global;
use std::test::Fail;

/// Texts as words.
fn words_of(alloc: Global, texts: &[&str]) -> Result<Vec<String>, Fail> {
    let mut words = Vec::new(alloc);
    for text in texts {
        words.push(String::from_str(alloc, text)?)?;
    }
    Ok(words)
}

/// Words, each with the call that they ask for: values attached and behind, what is asked for where no word says, and limits.
const CALLS: [(&[&str], &str); 21] = [
    (
        &["run"],
        "Run(Asked { cpus: None, steps: 1000, schedule: Threads })",
    ),
    (
        &["run", "--"],
        "Run(Asked { cpus: None, steps: 1000, schedule: Threads })",
    ),
    (
        &["run", "--steps=3"],
        "Run(Asked { cpus: None, steps: 3, schedule: Threads })",
    ),
    (
        &["run", "--steps", "3"],
        "Run(Asked { cpus: None, steps: 3, schedule: Threads })",
    ),
    (
        &["run", "--steps=0"],
        "Run(Asked { cpus: None, steps: 0, schedule: Threads })",
    ),
    (
        &["run", "--steps", "65536"],
        "Run(Asked { cpus: None, steps: 65536, schedule: Threads })",
    ),
    (
        &["run", "--steps=00000000000000000007"],
        "Run(Asked { cpus: None, steps: 7, schedule: Threads })",
    ),
    (
        &["run", "--cpus=1"],
        "Run(Asked { cpus: Some(1), steps: 1000, schedule: Threads })",
    ),
    (
        &["run", "--cpus", "8", "--order", "round"],
        "Run(Asked { cpus: Some(8), steps: 1000, schedule: Named(Round) })",
    ),
    (
        &["run", "--order=threads", "--seed=7"],
        "Run(Asked { cpus: None, steps: 1000, schedule: Threads })",
    ),
    (
        &["run", "--order=seed"],
        "Run(Asked { cpus: None, steps: 1000, schedule: Named(Seed(1)) })",
    ),
    (
        &["run", "--seed", "0", "--order=seed"],
        "Run(Asked { cpus: None, steps: 1000, schedule: Named(Seed(0)) })",
    ),
    (
        &["run", "--order", "seed", "--seed=18446744073709551615"],
        "Run(Asked { cpus: None, steps: 1000, schedule: Named(Seed(18446744073709551615)) })",
    ),
    (
        &[
            "run",
            "--seed=5",
            "--order",
            "seed",
            "--steps=9",
            "--cpus",
            "2",
        ],
        "Run(Asked { cpus: Some(2), steps: 9, schedule: Named(Seed(5)) })",
    ),
    (&["asm"], "Assemble"),
    (&["asm", "--"], "Assemble"),
    (&["soak"], "Soak(1)"),
    (&["soak", "--seed=3"], "Soak(3)"),
    (&["soak", "--seed", "0"], "Soak(0)"),
    (
        &["soak", "--seed=18446744073709551615"],
        "Soak(18446744073709551615)",
    ),
    (&["soak", "--"], "Soak(1)"),
];

#[test]
fn words_ask_for_calls(rt: HostRuntime) -> Result<(), Fail> {
    for (texts, wanted) in CALLS {
        let words = words_of(rt.alloc(), texts)?;
        let Ok(call) = read_words(rt.alloc(), words.as_slice()) else {
            return Err(Fail::new(wanted));
        };
        assert_eq!(rt; format!(in rt.alloc(); "{call:?}")?.as_str(), wanted);
    }
    Ok(())
}

/// Words with no command.
const NO_COMMANDS: [&[&str]; 7] = [
    &[],
    &[""],
    &["walk"],
    &["Run"],
    &["run "],
    &["--steps=3", "run"],
    &["--", "run"],
];

/// Words behind a command that it doesn't take, whatever the values are.
const NO_LINES: [&[&str]; 27] = [
    &["run", "3"],
    &["run", ""],
    &["run", "run"],
    &["run", "--", "3"],
    &["run", "--frob=1"],
    &["run", "--step=3"],
    &["run", "--Steps=3"],
    &["run", "-s", "3"],
    &["run", "-"],
    &["run", "--steps"],
    &["run", "--steps", "-1"],
    &["run", "--steps", "--order=round"],
    &["run", "--steps", "--"],
    &["run", "--steps=3", "--steps=3"],
    &["run", "--steps=3", "--steps", "4"],
    &["run", "--steps=x", "--frob"],
    &["run", "--help"],
    &["run", "-h"],
    &["run", "--version"],
    &["run", "help"],
    &["asm", "3"],
    &["asm", "--seed=3"],
    &["asm", "--help"],
    &["soak", "3"],
    &["soak", "--steps=3"],
    &["soak", "--seed"],
    &["soak", "--seed=1", "--seed=1"],
];

/// Lines with a value that is none.
const NO_VALUES: [&[&str]; 24] = [
    &["run", "--steps="],
    &["run", "--steps", ""],
    &["run", "--steps", "-"],
    &["run", "--steps=-1"],
    &["run", "--steps=+1"],
    &["run", "--steps= 1"],
    &["run", "--steps=1 "],
    &["run", "--steps=0x1"],
    &["run", "--steps=1=1"],
    &["run", "--steps=65537"],
    &["run", "--steps=000000000000000000007"],
    &["run", "--cpus=0"],
    &["run", "--cpus", "9"],
    &["run", "--cpus=18446744073709551617"],
    &["run", "--order="],
    &["run", "--order=Round"],
    &["run", "--order", "list"],
    &["run", "--order=round "],
    &["run", "--seed="],
    &["run", "--seed=18446744073709551616", "--order=round"],
    &["soak", "--seed="],
    &["soak", "--seed=-1"],
    &["soak", "--seed", "-"],
    &["soak", "--seed=18446744073709551616"],
];

#[test]
fn words_are_refused_by_name(rt: HostRuntime) -> Result<(), Fail> {
    let tables: [(&[&[&str]], UsageKind); 3] = [
        (&NO_COMMANDS, UsageKind::Command),
        (&NO_LINES, UsageKind::Line),
        (&NO_VALUES, UsageKind::Value),
    ];
    for (table, kind) in tables {
        for texts in table {
            let words = words_of(rt.alloc(), texts)?;
            let stop = read_words(rt.alloc(), words.as_slice()).err();
            assert_eq!(rt; stop, Some(CallStop::Refused(kind)), "{texts:?}");
        }
    }
    Ok(())
}

#[test]
fn kinds_have_numbers_and_names(rt: HostRuntime) {
    let rows = [
        (UsageKind::Command, 1, "Command"),
        (UsageKind::Line, 2, "Line"),
        (UsageKind::Value, 3, "Value"),
        (UsageKind::Cpus, 4, "Cpus"),
        (UsageKind::Budget, 5, "Budget"),
    ];
    for (kind, number, name) in rows {
        assert_eq!(rt; (kind.number(), kind.name()), (number, name));
    }
}
