//! The work of a call: from its words and its input to its output.
ghost use Rattle.std.specs.Prelude.{◌≡◌, ◌<◌, ◌≤◌, None, Ok, All, IfOk, IfErr, length};
ghost use Rattle.m386_image.specs.Format.{IsValid};
ghost use Rattle.m386_step.specs.Run.{BeginsWith};
ghost use Rattle.m386_book.specs.Verdict.{IsFirstFailure};
ghost use Rattle.m386.specs.Top.{IsAnswer, IsAnswerOf, IsRunAnswer, IsRunOf, HasAllowed, HasNone, at_edges, at_source, at_out, count_of, excess, refusal};
ghost use Rattle.m386_calls.specs.Words.{texts, IsAsked, in_no_thread, words_mean_plainly};
ghost use Rattle.m386_calls.specs.declared.call.Asked.{Asked as AskedData};
ghost use Rattle.m386_calls.specs.declared.call.Call.TheVariants.{Run};
ghost use Rattle.m386_calls.specs.declared.call.Schedule.TheVariants.{Threads};

use crate::assembling::assemble_input;
use crate::input::read_input;
use crate::run::{run_image, run_in_threads};
use crate::soak::soak;
use crate::status::Status;
use m386_base::fault::NoMemory;
use m386_book::clean::clean;
use m386_book::verdict::Verdict;
use m386_calls::call::{Asked, Call, Schedule};
use m386_calls::reading::read_words;
use m386_calls::stop::CallStop;
use m386_calls::usage::UsageKind;
use m386_edge::failed::Failed;
use m386_edge::gate::Gate;
use m386_edge::sink::Sink;
use m386_edge::source::Source;
use m386_image::fault::ReadStop;
use m386_image::image::Image;
use m386_image::reading::read_image;
use m386_memory::ended::Ended;
use m386_state::proc::Proc;
use m386_trace::report::report;
use std::alloc::Global;
use std::sync::Wait;
use std::thread::Threads;

/// The most steps of all processors together.
const MOST_STEPS: u64 = 262_144;

/// How many processors run.
fn count_for(image: &Image, asked: Option<u8>) -> u8
    ensures { result ≡ count_of image.now asked }
{
    match asked {
        None => image.cpus,
        Some(count) => count,
    }
}

/// Why so many processors with so many steps each are refused, of an image that has `has`.
fn excess_of(has: u8, count: u8, steps: u32) -> Option<UsageKind>
    ensures { result ≡ excess has count steps }
{
    if has < count {
        Some(UsageKind::Cpus)
    } else if MOST_STEPS < count as u64 * steps as u64 {
        Some(UsageKind::Budget)
    } else {
        None
    }
}

/// The verdict on a run.
pub fn verdict_on(alloc: Global, image: &Image, ended: &Ended<Proc>) -> Result<Verdict, NoMemory>
    requires { All (λ c. c.cpu < 8) ended.now.log.cycles }
    ensures { IfOk result (IsFirstFailure image.now ended.now.log.cycles) }
{
    clean(alloc, image, ended.log.cycles())
}

/// Writes the report on a run, whose verdict this is. It answers whatever asks for that run.
fn write_run<K: Sink>(image: &Image, ended: &Ended<Proc>, verdict: &Verdict, out: &mut K) -> Status
    requires valid { IsValid image.now }
    requires cpus { All (λ c. c.cpu < 8) ended.now.log.cycles }
    requires few { length ended.now.procs ≤ 8 }
    requires begins { BeginsWith image.now ended.now.log.first }
    requires first { IsFirstFailure image.now ended.now.log.cycles verdict.now }
    ensures { (asked : AskedData) → refusal image.now asked ≡ None → IsRunOf image.now asked ended.now.log.cycles ended.now.procs
        → IsAnswerOf image.now asked (at_out (K.held out.old) (K.faults out.old)) (at_out (K.held out.new) (K.faults out.new)) result }
{
    match report(image, &ended.log, ended.procs.as_slice(), verdict, out) {
        Ok(()) => Status::Done,
        Err(Failed) => Status::WriteFault,
    }
}

/// Writes the report on the run of an image.
fn report_on<K: Sink>(alloc: Global, image: &Image, ended: &Ended<Proc>, out: &mut K) -> Status
    requires valid { IsValid image.now }
    requires cpus { All (λ c. c.cpu < 8) ended.now.log.cycles }
    requires few { length ended.now.procs ≤ 8 }
    requires begins { BeginsWith image.now ended.now.log.first }
    ensures { (asked : AskedData) → refusal image.now asked ≡ None → IsRunOf image.now asked ended.now.log.cycles ended.now.procs
        → IsAnswerOf image.now asked (at_out (K.held out.old) (K.faults out.old)) (at_out (K.held out.new) (K.faults out.new)) result }
{
    let Ok(verdict) = verdict_on(alloc, image, ended) else {
        return Status::Memory;
    };
    write_run(image, ended, &verdict, out)
}

/// The image that the source has, where it allows what is asked for, and how many of its processors run.
fn read_allowed<S: Source>(
    alloc: Global,
    source: &mut S,
    asked: &Asked,
) -> Result<(Image, u8), Status>
    requires { IsAsked asked.now }
    ensures ok { IfOk result (λ r. HasAllowed asked.now (at_source (S.left source.old) (S.faults source.old)) (at_source (S.left source.new) (S.faults source.new)) r.0) }
    ensures err { IfErr result (HasNone asked.now (at_source (S.left source.old) (S.faults source.old)) (at_source (S.left source.new) (S.faults source.new))) }
    ensures valid { IfOk result (λ r. IsValid r.0) }
    ensures count { IfOk result (λ r. (r.1 ≡ count_of r.0 asked.now.cpus) × (1 ≤ r.1) × (r.1 ≤ r.0.cpus)) }
{
    let bytes = read_input(alloc, source)?;
    let image = match read_image(alloc, &bytes) {
        Ok(image) => image,
        Err(ReadStop::Memory) => return Err(Status::Memory),
        Err(ReadStop::Bad(fault)) => return Err(Status::Image(fault)),
    };
    let cpus = count_for(&image, asked.cpus);
    match excess_of(image.cpus, cpus, asked.steps) {
        Some(kind) => Err(Status::Usage(kind)),
        None => Ok((image, cpus)),
    }
}

/// Makes the run that is asked for with what the source has, where that is no run in threads.
fn perform_run<S: Source, K: Sink>(
    alloc: Global,
    asked: &Asked,
    source: &mut S,
    out: &mut K,
) -> Status
    requires { IsAsked asked.now }
    ensures { IsRunAnswer (in_no_thread asked.now asked.now.schedule)
        (at_edges (S.left source.old) (S.faults source.old) (K.held out.old) (K.faults out.old))
        (at_edges (S.left source.new) (S.faults source.new) (K.held out.new) (K.faults out.new))
        result }
{
    let Schedule::Named(order) = &asked.schedule else {
        return Status::Usage(UsageKind::Value);
    };
    let (image, cpus) = match read_allowed(alloc, source, asked) {
        Ok(allowed) => allowed,
        Err(status) => return status,
    };
    let Ok(ended) = run_image(alloc, &image, cpus, asked.steps, order) else {
        return Status::Memory;
    };
    report_on(alloc, &image, &ended, out)
}

/// Does what the words ask for with what the source has, where that is no run in threads.
pub fn perform<S: Source, K: Sink>(
    alloc: Global,
    words: &[String],
    source: &mut S,
    out: &mut K,
) -> Status
    ensures { IsAnswer (words_mean_plainly (texts words.now))
        (at_edges (S.left source.old) (S.faults source.old) (K.held out.old) (K.faults out.old))
        (at_edges (S.left source.new) (S.faults source.new) (K.held out.new) (K.faults out.new))
        result }
{
    let call = match read_words(alloc, words) {
        Ok(call) => call,
        Err(CallStop::Memory) => return Status::Memory,
        Err(CallStop::Refused(kind)) => return Status::Usage(kind),
    };
    match &call {
        Call::Run(asked) => perform_run(alloc, asked, source, out),
        Call::Assemble => assemble_input(alloc, source, out),
        Call::Soak(number) => soak(alloc, *number, out),
    }
}

/// Makes the run in threads that is asked for with what the source has.
pub fn perform_in_threads<S: Source, K: Sink, G: Gate + Sync, R: Threads + Wait + Sync>(
    rt: &R,
    alloc: Global,
    asked: &Asked,
    source: &mut S,
    out: &mut K,
    gate: &G,
) -> Status
    requires kept { IsAsked asked.now }
    requires threads { asked.now.schedule ≡ Threads }
    ensures { IsAnswer (Ok (Run asked.now))
        (at_edges (S.left source.old) (S.faults source.old) (K.held out.old) (K.faults out.old))
        (at_edges (S.left source.new) (S.faults source.new) (K.held out.new) (K.faults out.new))
        result }
{
    let (image, cpus) = match read_allowed(alloc, source, asked) {
        Ok(allowed) => allowed,
        Err(status) => return status,
    };
    let Ok(ended) = run_in_threads(rt, alloc, &image, cpus, asked.steps, gate) else {
        return Status::Memory;
    };
    report_on(alloc, &image, &ended, out)
}
