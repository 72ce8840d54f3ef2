//! The whole report, written line by line.
ghost use Rattle.std.specs.Prelude.{◌+◌, ◌<◌, ◌≤◌, ◌++◌, ◌*◌, [], OnOk, OnErr, length, All, unwrap_or};
ghost use Rattle.std.specs.List.{flat_map};
ghost use Rattle.m386_base.specs.Bus.{Rose};
ghost use Rattle.m386_base.specs.declared.ask.Space.TheVariants.{Memory};
ghost use Rattle.m386_edge.specs.Edge.{Grows, GrowsByFront};
ghost use Rattle.m386_memory.specs.Contents.{byte_in};
ghost use Rattle.m386_trace.specs.Report.{cycle_text, left_at, machine_text, procs_text, report_text, title_text, IsPrintable};
ghost use Rattle.m386_trace.specs.Tasks.{task_text, tasks_text};

use crate::cycle::cycle_line;
use crate::machine::machine_line;
use crate::proc::proc_line;
use crate::task::task_line;
use crate::verdict::verdict_line;
use m386_base::ask::Cycle;
use m386_book::verdict::Verdict;
use m386_edge::failed::Failed;
use m386_edge::sink::Sink;
use m386_edge::writing::write_whole;
use m386_image::image::{Image, TableAt};
use m386_memory::ended::ProcEnd;
use m386_memory::history::Record;
use m386_memory::store::Store;
use m386_state::proc::Proc;

/// Writes the first line.
#[tactic(auto, unfolding(crate::specs::Report::title_text))]
fn write_title<K: Sink>(out: &mut K) -> Result<(), Failed>
    ensures ok { OnOk result (Grows (K.held out.old) (K.held out.new) title_text) }
    ensures err { OnErr result (GrowsByFront (K.held out.old) (K.held out.new) title_text) }
    ensures failed { OnErr result (Rose (K.faults out.old) (K.faults out.new)) }
    ensures never_falls { K.faults out.old ≤ K.faults out.new }
{
    write_whole(out, b"m386 report 1\n")
}

/// Writes the first two lines.
#[tactic(auto, using(m386_edge::proofs::Edge::growing))]
fn write_head<K: Sink>(image: &Image, cpus: usize, out: &mut K) -> Result<(), Failed>
    ensures ok { OnOk result (Grows (K.held out.old) (K.held out.new) (title_text ++ machine_text image.now cpus)) }
    ensures err { OnErr result
        (GrowsByFront (K.held out.old) (K.held out.new) (title_text ++ machine_text image.now cpus)) }
    ensures failed { OnErr result (Rose (K.faults out.old) (K.faults out.new)) }
    ensures never_falls { K.faults out.old ≤ K.faults out.new }
{
    write_title(out)?;
    write_whole(out, machine_line(image, cpus).as_bytes())
}

/// Writes the lines of the cycles.
fn write_cycles<K: Sink>(cycles: &[Cycle], out: &mut K) -> Result<(), Failed>
    requires { All IsPrintable cycles.now }
    ensures ok { OnOk result (Grows (K.held out.old) (K.held out.new) (flat_map cycle_text cycles.now)) }
    ensures err { OnErr result (GrowsByFront (K.held out.old) (K.held out.new) (flat_map cycle_text cycles.now)) }
    ensures failed { OnErr result (Rose (K.faults out.old) (K.faults out.new)) }
    ensures never_falls { K.faults out.old ≤ K.faults out.new }
{
    for cycle in cycles {
        write_whole(out, cycle_line(cycle).as_bytes())?;
    }
    Ok(())
}

/// Writes the lines of the processors.
fn write_procs<K: Sink>(procs: &[ProcEnd<Proc>], out: &mut K) -> Result<(), Failed>
    requires { length procs.now ≤ 8 }
    ensures ok { OnOk result (Grows (K.held out.old) (K.held out.new) (procs_text 0 procs.now)) }
    ensures err { OnErr result (GrowsByFront (K.held out.old) (K.held out.new) (procs_text 0 procs.now)) }
    ensures failed { OnErr result (Rose (K.faults out.old) (K.faults out.new)) }
    ensures never_falls { K.faults out.old ≤ K.faults out.new }
{
    for (cpu, end) in procs.iter().enumerate() {
        write_whole(out, proc_line(cpu as u8, end).as_bytes())?;
    }
    Ok(())
}

/// Writes the line of the descriptor with a number in a table, if it is of a TSS.
fn write_task<K: Sink>(
    store: &Store,
    table: TableAt,
    number: u16,
    out: &mut K,
) -> Result<(), Failed>
    requires from { 1 ≤ number }
    requires within { number * 8 + 7 ≤ table.limit }
    ensures ok { OnOk result (Grows (K.held out.old) (K.held out.new) (unwrap_or (task_text (byte_in store.now Memory) table number) [])) }
    ensures err { OnErr result (GrowsByFront (K.held out.old) (K.held out.new) (unwrap_or (task_text (byte_in store.now Memory) table number) [])) }
    ensures failed { OnErr result (Rose (K.faults out.old) (K.faults out.new)) }
    ensures never_falls { K.faults out.old ≤ K.faults out.new }
{
    match task_line(store, table, number) {
        Some(line) => write_whole(out, line.as_bytes()),
        None => Ok(()),
    }
}

/// Writes the lines of the tasks of a table.
#[tactic(auto, unfolding(crate::specs::Tasks::tasks_text))]
fn write_tasks<K: Sink>(store: &Store, table: TableAt, out: &mut K) -> Result<(), Failed>
    ensures ok { OnOk result (Grows (K.held out.old) (K.held out.new) (tasks_text (byte_in store.now Memory) table)) }
    ensures err { OnErr result (GrowsByFront (K.held out.old) (K.held out.new) (tasks_text (byte_in store.now Memory) table)) }
    ensures failed { OnErr result (Rose (K.faults out.old) (K.faults out.new)) }
    ensures never_falls { K.faults out.old ≤ K.faults out.new }
{
    // The descriptors but the null one.
    let described = ((u32::from(table.limit) + 1) / 8).saturating_sub(1) as u16;
    for before in 0..described {
        write_task(store, table, before + 1, out)?;
    }
    Ok(())
}

/// Writes the lines of the tasks of a table, as the cycles of a record left them.
fn write_tasks_left<K: Sink>(log: &Record, table: TableAt, out: &mut K) -> Result<(), Failed>
    ensures ok { OnOk result (Grows (K.held out.old) (K.held out.new) (tasks_text (left_at log.now.first log.now.cycles) table)) }
    ensures err { OnErr result (GrowsByFront (K.held out.old) (K.held out.new) (tasks_text (left_at log.now.first log.now.cycles) table)) }
    ensures failed { OnErr result (Rose (K.faults out.old) (K.faults out.new)) }
    ensures never_falls { K.faults out.old ≤ K.faults out.new }
{
    write_tasks(log.store(), table, out)
}

/// Writes the first two lines, and those of the cycles.
#[tactic(auto, using(m386_edge::proofs::Edge::growing))]
fn write_begin<K: Sink>(image: &Image, cpus: usize, log: &Record, out: &mut K) -> Result<(), Failed>
    requires cpus { All (λ c. c.cpu < 8) log.now.cycles }
    ensures ok { OnOk result (Grows (K.held out.old) (K.held out.new)
        (title_text ++ machine_text image.now cpus ++ flat_map cycle_text log.now.cycles)) }
    ensures err { OnErr result (GrowsByFront (K.held out.old) (K.held out.new)
        (title_text ++ machine_text image.now cpus ++ flat_map cycle_text log.now.cycles)) }
    ensures failed { OnErr result (Rose (K.faults out.old) (K.faults out.new)) }
    ensures never_falls { K.faults out.old ≤ K.faults out.new }
{
    write_head(image, cpus, out)?;
    write_cycles(log.cycles(), out)
}

/// Writes the report on a run to a sink, each line as one piece: the image that it began with, its cycles, how each
/// processor ended, the tasks of the image's GDT as the cycles left memory, and the verdict. Where the sink fails it has taken a front of the report. It
/// takes no memory.
#[tactic(auto, using(m386_edge::proofs::Edge::growing), unfolding(crate::specs::Report::report_text))]
pub fn report<K: Sink>(
    image: &Image,
    log: &Record,
    procs: &[ProcEnd<Proc>],
    verdict: &Verdict,
    out: &mut K,
) -> Result<(), Failed>
    requires cpus { All (λ c. c.cpu < 8) log.now.cycles }
    requires few { length procs.now ≤ 8 }
    ensures ok { OnOk result (Grows (K.held out.old) (K.held out.new)
        (report_text image.now log.now.first log.now.cycles procs.now verdict.now)) }
    ensures err { OnErr result (GrowsByFront (K.held out.old) (K.held out.new)
        (report_text image.now log.now.first log.now.cycles procs.now verdict.now)) }
    ensures failed { OnErr result (Rose (K.faults out.old) (K.faults out.new)) }
    ensures never_falls { K.faults out.old ≤ K.faults out.new }
{
    write_begin(image, procs.len(), log, out)?;
    write_procs(procs, out)?;
    write_tasks_left(log, image.gdt, out)?;
    write_whole(out, verdict_line(verdict).as_bytes())
}
