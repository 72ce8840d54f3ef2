//! The lines of commands: which words stand behind each, as simple commands of `clap`.
ghost use Rattle.std.specs.Prelude.{◌≡◌, true, false, IfOk, []};
ghost use Rattle.clap.specs.Simple.{app_of};
ghost use Rattle.clap.specs.Faults.{fault_of, is_simple_and_free};
ghost use Rattle.clap.specs.Walk.{rule_of, rows_of};
ghost use Rattle.clap.specs.Matches.{found_of};
ghost use Rattle.clap.specs.Simple.{matches_of};
ghost use Rattle.m386_calls.specs.Lines.{IsParse, line_of, option_of, run_line, asm_line, soak_line};
ghost use Rattle.m386_calls.specs.Words.{texts};

use crate::stop::CallStop;
use crate::usage::UsageKind;
use clap::error::ErrorKind;
use clap::{Arg, ArgAction, ArgMatches, Command};
use std::alloc::{AllocError, Global};

/// An option of this name, which takes one value.
fn option<'a>(alloc: Global, name: &'a str) -> Arg<'a>
    ensures rule { rule_of result ≡ option_of name.entry.now }
    ensures local { result.global ≡ false }
{
    Arg::new(alloc, name).long(name).action(ArgAction::Set)
}

/// The line of this name that has no option yet.
fn line<'a>(alloc: Global, name: &'a str) -> Command<'a>
    ensures { app_of result ≡ line_of name.entry.now [] }
{
    Command::new(alloc, name)
        .no_binary_name(true)
        .disable_help_flag(true)
}

/// The line of `run`.
#[tactic(auto, unfolding(crate::specs::Lines::run_line))]
pub fn run<'a>(alloc: Global) -> Result<Command<'a>, AllocError>
    ensures { IfOk result (λ c. app_of c ≡ run_line) }
{
    line(alloc, "run")
        .arg(option(alloc, "cpus"))?
        .arg(option(alloc, "steps"))?
        .arg(option(alloc, "order"))?
        .arg(option(alloc, "seed"))
}

/// The line of `asm`, which has no option.
#[tactic(auto, unfolding(crate::specs::Lines::asm_line))]
pub fn asm<'a>(alloc: Global) -> Command<'a>
    ensures { app_of result ≡ asm_line }
{
    line(alloc, "asm")
}

/// The line of `soak`.
#[tactic(auto, unfolding(crate::specs::Lines::soak_line))]
pub fn soak<'a>(alloc: Global) -> Result<Command<'a>, AllocError>
    ensures { IfOk result (λ c. app_of c ≡ soak_line) }
{
    line(alloc, "soak").arg(option(alloc, "seed"))
}

/// What the words are in a line, where they fit it.
pub fn parse<'a>(line: Command<'a>, words: &'a [String]) -> Result<ArgMatches<'a>, CallStop>
    requires { is_simple_and_free (app_of line) ≡ true }
    ensures { IsParse (app_of line.entry) (texts words.entry.now) result }
{
    match line.try_get_matches_from(words) {
        Ok(matches) => Ok(matches),
        Err(error) if error.kind() == ErrorKind::OutOfMemory => Err(CallStop::Memory),
        Err(_) => Err(CallStop::Refused(UsageKind::Line)),
    }
}
