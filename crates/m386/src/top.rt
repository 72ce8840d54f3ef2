//! The calls of the program: words and an input in, the report or the cause of its absence out.
ghost use Rattle.std.specs.Prelude.{◌≡◌, ◌≤◌, ◌<◌, ℕ, List, Ok, Err, Some, None, IfOk, IfSome, length};
ghost use Rattle.m386_image.specs.Fault.{FirstFault};
ghost use Rattle.m386_image.specs.Format.{ImageOf};
ghost use Rattle.m386_image.specs.declared.fault.ImageFault.{ImageFault as FaultData};
ghost use Rattle.m386_image.specs.declared.image.Image.{Image as ImageData};
ghost use Rattle.m386_asm.specs.Layout.{Layout};
ghost use Rattle.m386_base.specs.Bus.{Rose};
ghost use Rattle.m386_lines.specs.declared.kind.AsmKind.{AsmKind as AsmData};
ghost use Rattle.m386.specs.Top.{IsAnswer, OrMemory, Tells, at_edges, most_bytes, refusal};
ghost use Rattle.m386_calls.specs.Words.{texts, IsAsked, words_mean, words_mean_plainly};
ghost use Rattle.m386_calls.specs.declared.usage.UsageKind.{UsageKind as KindData};
ghost use Rattle.m386_calls.specs.declared.call.Asked.{Asked as AskedData};
ghost use Rattle.m386_calls.specs.declared.call.Call.TheVariants.{Assemble, Run, Soak};
ghost use Rattle.m386_calls.specs.declared.call.Schedule.TheVariants.{Threads};

use crate::perform::{perform, perform_in_threads};
use crate::status::Status;
use crate::tell::tell;
use m386_base::fault::NoMemory;
use m386_calls::call::{Asked, Call, Schedule};
use m386_calls::reading::read_words;
use m386_calls::stop::CallStop;
use m386_edge::gate::Gate;
use m386_edge::sink::Sink;
use m386_edge::source::Source;
use std::alloc::Global;
use std::sync::Wait;
use std::thread::Threads;

/// Says in a line on `err` how a call ended, and gives its status, whether `err` took the line or not.
fn told<E: Sink>(err: &mut E, status: Status) -> Status
    ensures status { result ≡ status }
    ensures told { Tells (E.held err.old) (E.held err.new) (E.faults err.old) (E.faults err.new) status }
{
    match tell(err, status) {
        Ok(()) => status,
        Err(_) => status,
    }
}

/// Does what the words ask for with the input of `source`: writes the output to `out`, or says in a line on `err` why there
/// is none. It starts no thread and always returns: a run in threads is a value of the order that it refuses. Want of memory may
/// come at any point before the first byte is written to `out`.
#[tactic(auto, using(crate::proofs::Answers::answers))]
pub fn top_plain<S: Source, K: Sink, E: Sink>(
    alloc: Global,
    words: &[String],
    source: &mut S,
    out: &mut K,
    err: &mut E,
) -> Status
    // When each status comes, and what it leaves.
    ensures answer { IsAnswer (words_mean_plainly (texts words.now))
        (at_edges (S.left source.old) (S.faults source.old) (K.held out.old) (K.faults out.old))
        (at_edges (S.left source.new) (S.faults source.new) (K.held out.new) (K.faults out.new))
        result }
    // Words that are refused are refused by this name, whatever the input is.
    ensures usage { (kind : KindData) → words_mean_plainly (texts words.now) ≡ Err kind → OrMemory result (Status.Usage kind) }
    // Valid input with no fault counted is never refused.
    ensures complete { (asked : AskedData) (bytes : List ℕ) (image : ImageData) → words_mean_plainly (texts words.now) ≡ Ok (Run asked)
        → S.left source.old ≡ Some bytes → length bytes ≤ most_bytes → ImageOf bytes image → refusal image asked ≡ None
        → ¬ Rose (S.faults source.old) (S.faults source.new) → ¬ Rose (K.faults out.old) (K.faults out.new)
        → OrMemory result Status.Done }
    // More than an image has, or than a run may take, is refused by its name.
    ensures excess { (asked : AskedData) (bytes : List ℕ) (image : ImageData) (kind : KindData) → words_mean_plainly (texts words.now) ≡ Ok (Run asked)
        → S.left source.old ≡ Some bytes → length bytes ≤ most_bytes → ImageOf bytes image → refusal image asked ≡ Some kind
        → ¬ Rose (S.faults source.old) (S.faults source.new)
        → OrMemory result (Status.Usage kind) }
    // Input that is no image is refused by its first fault.
    ensures image { (asked : AskedData) (bytes : List ℕ) (fault : FaultData) → words_mean_plainly (texts words.now) ≡ Ok (Run asked)
        → S.left source.old ≡ Some bytes → length bytes ≤ most_bytes → FirstFault bytes fault
        → ¬ Rose (S.faults source.old) (S.faults source.new)
        → OrMemory result (Status.Image fault) }
    // So is a text that lays out an image, and a faulty one is refused by its first faulty line and the least of its kinds.
    ensures assembled { (text bytes : List ℕ) → words_mean_plainly (texts words.now) ≡ Ok Assemble
        → S.left source.old ≡ Some text → length text ≤ most_bytes → Layout text (Ok bytes)
        → ¬ Rose (S.faults source.old) (S.faults source.new) → ¬ Rose (K.faults out.old) (K.faults out.new)
        → OrMemory result Status.Done }
    ensures faulty { (text : List ℕ) (line : ℕ) (kind : AsmData) → words_mean_plainly (texts words.now) ≡ Ok Assemble
        → S.left source.old ≡ Some text → length text ≤ most_bytes → Layout text (Err (line, kind))
        → ¬ Rose (S.faults source.old) (S.faults source.new)
        → OrMemory result (Status.Asm line kind) }
    ensures long_text { (text : List ℕ) → words_mean_plainly (texts words.now) ≡ Ok Assemble
        → S.left source.old ≡ Some text → most_bytes < length text
        → ¬ Rose (S.faults source.old) (S.faults source.new)
        → OrMemory result Status.TooLong }
    // A soak needs no input, and isn't refused either.
    ensures soaked { (number : ℕ) → words_mean_plainly (texts words.now) ≡ Ok (Soak number)
        → ¬ Rose (K.faults out.old) (K.faults out.new) → OrMemory result Status.Done }
    // Input that is too long is refused as such.
    ensures too_long { (asked : AskedData) (bytes : List ℕ) → words_mean_plainly (texts words.now) ≡ Ok (Run asked)
        → S.left source.old ≡ Some bytes → most_bytes < length bytes
        → ¬ Rose (S.faults source.old) (S.faults source.new)
        → OrMemory result Status.TooLong }
    ensures told { Tells (E.held err.old) (E.held err.new) (E.faults err.old) (E.faults err.new) result }
{
    let status = perform(alloc, words, source, out);
    told(err, status)
}

/// The run in threads that the words ask for, if they ask for one.
fn read_in_threads(alloc: Global, words: &[String]) -> Result<Option<Asked>, NoMemory>
    ensures some { IfOk result (λ found. IfSome found (λ asked. (words_mean (texts words.now) ≡ Ok (Run asked)) × IsAsked asked × (asked.schedule ≡ Threads))) }
    ensures none { result ≡ Ok None → words_mean_plainly (texts words.now) ≡ words_mean (texts words.now) }
{
    match read_words(alloc, words) {
        Ok(Call::Run(asked)) if matches!(&asked.schedule, Schedule::Threads) => Ok(Some(asked)),
        Err(CallStop::Memory) => Err(NoMemory),
        _ => Ok(None),
    }
}

/// The same as `top_plain`, and makes a run in threads too, each of whose processors passes the gate before each turn. No clause says
/// that such a run returns: a thread or the gate may wait.
pub fn top<S: Source, K: Sink, E: Sink, G: Gate + Sync, R: Threads + Wait + Sync>(
    rt: &R,
    alloc: Global,
    words: &[String],
    source: &mut S,
    out: &mut K,
    err: &mut E,
    gate: &G,
) -> Status
    // When each status comes, and what it leaves.
    ensures answer { IsAnswer (words_mean (texts words.now))
        (at_edges (S.left source.old) (S.faults source.old) (K.held out.old) (K.faults out.old))
        (at_edges (S.left source.new) (S.faults source.new) (K.held out.new) (K.faults out.new))
        result }
    // Words that are refused are refused by this name, whatever the input is.
    ensures usage { (kind : KindData) → words_mean (texts words.now) ≡ Err kind → OrMemory result (Status.Usage kind) }
    // Valid input with no fault counted is never refused.
    ensures complete { (asked : AskedData) (bytes : List ℕ) (image : ImageData) → words_mean (texts words.now) ≡ Ok (Run asked)
        → S.left source.old ≡ Some bytes → length bytes ≤ most_bytes → ImageOf bytes image → refusal image asked ≡ None
        → ¬ Rose (S.faults source.old) (S.faults source.new) → ¬ Rose (K.faults out.old) (K.faults out.new)
        → OrMemory result Status.Done }
    // More than an image has, or than a run may take, is refused by its name.
    ensures excess { (asked : AskedData) (bytes : List ℕ) (image : ImageData) (kind : KindData) → words_mean (texts words.now) ≡ Ok (Run asked)
        → S.left source.old ≡ Some bytes → length bytes ≤ most_bytes → ImageOf bytes image → refusal image asked ≡ Some kind
        → ¬ Rose (S.faults source.old) (S.faults source.new)
        → OrMemory result (Status.Usage kind) }
    // Input that is no image is refused by its first fault.
    ensures image { (asked : AskedData) (bytes : List ℕ) (fault : FaultData) → words_mean (texts words.now) ≡ Ok (Run asked)
        → S.left source.old ≡ Some bytes → length bytes ≤ most_bytes → FirstFault bytes fault
        → ¬ Rose (S.faults source.old) (S.faults source.new)
        → OrMemory result (Status.Image fault) }
    // So is a text that lays out an image, and a faulty one is refused by its first faulty line and the least of its kinds.
    ensures assembled { (text bytes : List ℕ) → words_mean (texts words.now) ≡ Ok Assemble
        → S.left source.old ≡ Some text → length text ≤ most_bytes → Layout text (Ok bytes)
        → ¬ Rose (S.faults source.old) (S.faults source.new) → ¬ Rose (K.faults out.old) (K.faults out.new)
        → OrMemory result Status.Done }
    ensures faulty { (text : List ℕ) (line : ℕ) (kind : AsmData) → words_mean (texts words.now) ≡ Ok Assemble
        → S.left source.old ≡ Some text → length text ≤ most_bytes → Layout text (Err (line, kind))
        → ¬ Rose (S.faults source.old) (S.faults source.new)
        → OrMemory result (Status.Asm line kind) }
    ensures long_text { (text : List ℕ) → words_mean (texts words.now) ≡ Ok Assemble
        → S.left source.old ≡ Some text → most_bytes < length text
        → ¬ Rose (S.faults source.old) (S.faults source.new)
        → OrMemory result Status.TooLong }
    // A soak needs no input, and isn't refused either.
    ensures soaked { (number : ℕ) → words_mean (texts words.now) ≡ Ok (Soak number)
        → ¬ Rose (K.faults out.old) (K.faults out.new) → OrMemory result Status.Done }
    // Input that is too long is refused as such.
    ensures too_long { (asked : AskedData) (bytes : List ℕ) → words_mean (texts words.now) ≡ Ok (Run asked)
        → S.left source.old ≡ Some bytes → most_bytes < length bytes
        → ¬ Rose (S.faults source.old) (S.faults source.new)
        → OrMemory result Status.TooLong }
    ensures told { Tells (E.held err.old) (E.held err.new) (E.faults err.old) (E.faults err.new) result }
{
    let asked = match read_in_threads(alloc, words) {
        Ok(Some(asked)) => asked,
        Ok(None) => return top_plain(alloc, words, source, out, err),
        Err(NoMemory) => return told(err, Status::Memory),
    };
    let status = perform_in_threads(rt, alloc, &asked, source, out, gate);
    told(err, status)
}
