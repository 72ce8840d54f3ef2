//! Runs of images that are made from a number.
use super::{Fails, NO_FAILURE, Outcome, call};
use crate::status::Status;
use m386_calls::usage::UsageKind;
use std::alloc::Global;
use std::test::Fail;

/// A call of `soak` with no input.
fn soaked(alloc: Global, texts: &[&str], fails: Fails) -> Result<Outcome, Fail> {
    call(alloc, texts, Vec::new(alloc), 16, fails)
}

#[test]
fn soak_tells_of_the_image_of_its_number(rt: HostRuntime) -> Result<(), Fail> {
    // Two processors, whose two schedulers call two workers.
    let words = ["soak", "--seed=3"];
    let came = soaked(rt.alloc(), &words, NO_FAILURE)?;
    assert_eq!(rt; came.status, Status::Done);
    assert!(rt;
        came.out
            .bytes()
            .starts_with(b"soak 3 cpus 2 tasks 4 cycles ")
    );
    assert!(rt; came.out.bytes().ends_with(b" clean\n"));
    let again = soaked(rt.alloc(), &words, NO_FAILURE)?;
    assert_eq!(rt; came.out.bytes(), again.out.bytes());
    Ok(())
}

#[test]
fn soak_refuses_all_words_but_a_seed(rt: HostRuntime) -> Result<(), Fail> {
    let rows = [
        ("--seed=", UsageKind::Value),
        ("--seed=-1", UsageKind::Value),
        ("--seed=18446744073709551616", UsageKind::Value),
        ("--seed", UsageKind::Line),
        ("--steps=3", UsageKind::Line),
        ("3", UsageKind::Line),
    ];
    for (word, kind) in rows {
        let came = soaked(rt.alloc(), &["soak", word], NO_FAILURE)?;
        assert_eq!(rt; came.status, Status::Usage(kind));
        assert!(rt; came.out.bytes().is_empty());
    }
    let twice = soaked(rt.alloc(), &["soak", "--seed=1", "--seed=1"], NO_FAILURE)?;
    assert_eq!(rt; twice.status, Status::Usage(UsageKind::Line));
    Ok(())
}

#[test]
fn soak_tells_a_write_that_fails(rt: HostRuntime) -> Result<(), Fail> {
    let fails = Fails {
        write: 1,
        ..NO_FAILURE
    };
    let came = soaked(rt.alloc(), &["soak"], fails)?;
    assert_eq!(rt; came.status, Status::WriteFault);
    assert!(rt; came.out.bytes().is_empty());
    Ok(())
}
