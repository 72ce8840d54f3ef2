//! Reading the words of a call.
ghost use Rattle.std.specs.Prelude.{◌≡◌, IfOk};
ghost use Rattle.m386_calls.specs.Words.{IsAsked, IsCall, IsReading, asm_means, run_means, soak_means, texts, words_mean};

use crate::call::{Asked, Call};
use crate::line::{asm, parse, run, soak};
use crate::stop::CallStop;
use crate::usage::UsageKind;
use crate::values::{all_asked, read_cpus, read_schedule, read_seed, read_steps};
use std::alloc::Global;

/// What the words behind `run` ask for.
#[tactic(auto, using(crate::proofs::Lines::simple))]
fn read_run(alloc: Global, words: &[String]) -> Result<Asked, CallStop>
    ensures value { IsReading (run_means (texts words.now)) result }
    ensures kept { IfOk result IsAsked }
{
    let Ok(line) = run(alloc) else {
        return Err(CallStop::Memory);
    };
    let matches = parse(line, words)?;
    all_asked(
        read_cpus(matches.get_str("cpus")),
        read_steps(matches.get_str("steps")),
        read_schedule(matches.get_str("order"), read_seed(matches.get_str("seed"))),
    )
}

/// What the words behind `asm` ask for.
#[tactic(auto, using(crate::proofs::Lines::simple))]
fn read_asm(alloc: Global, words: &[String]) -> Result<Call, CallStop>
    ensures value { IsReading (asm_means (texts words.now)) result }
    ensures kept { IfOk result IsCall }
{
    parse(asm(alloc), words)?;
    Ok(Call::Assemble)
}

/// The number that the words behind `soak` ask for.
#[tactic(auto, using(crate::proofs::Lines::simple))]
fn read_soak(alloc: Global, words: &[String]) -> Result<u64, CallStop>
    ensures { IsReading (soak_means (texts words.now)) result }
{
    let Ok(line) = soak(alloc) else {
        return Err(CallStop::Memory);
    };
    let matches = parse(line, words)?;
    read_seed(matches.get_str("seed")).ok_or(CallStop::Refused(UsageKind::Value))
}

/// What the words of a call ask for, or why they ask for nothing: the command, and the options behind it.
pub fn read_words(alloc: Global, words: &[String]) -> Result<Call, CallStop>
    ensures value { IsReading (words_mean (texts words.now)) result }
    ensures kept { IfOk result IsCall }
{
    let Some((command, others)) = words.split_first() else {
        return Err(CallStop::Refused(UsageKind::Command));
    };
    match command.as_str() {
        "run" => Ok(Call::Run(read_run(alloc, others)?)),
        "asm" => read_asm(alloc, others),
        "soak" => Ok(Call::Soak(read_soak(alloc, others)?)),
        _ => Err(CallStop::Refused(UsageKind::Command)),
    }
}
