//! The order of the plan's entries.
ghost use Rattle.std.specs.Prelude.{◌≡◌, not};
ghost use Rattle.std.specs.Option.{option_or};
ghost use Rattle.m386_words.specs.Seen.{expression_seen};
ghost use Rattle.m386_lines.specs.Seen.{statement_seen};
ghost use Rattle.m386_asm.specs.Knows.{Knows};
ghost use Rattle.m386_asm.specs.Layout.{Names as NameValues, entry_of, is_above, planned};
ghost use Rattle.m386_asm.specs.Walks.{entry_list, follows};

use crate::value::Names;
use m386_image::image::Planned;
use m386_lines::directive::Directive;
use m386_lines::line::Statement;
use m386_words::expression::Expression;

/// The plan entry of these values.
pub(crate) fn planned(
    names: &Names<'_>,
    cpu: &Expression<'_>,
    step: &Expression<'_>,
    vector: &Expression<'_>,
) -> Planned
    ensures { (ns : NameValues) → Knows names.now ns → result ≡ entry_of ns (expression_seen cpu.now) (expression_seen step.now) (expression_seen vector.now) }
{
    Planned {
        step: names.field(32, step),
        cpu: names.field(8, cpu) as u8,
        vector: names.field(8, vector) as u8,
    }
}

/// The plan entry of a line.
pub(crate) fn entry_of(names: &Names<'_>, statement: &Statement<'_>) -> Option<Planned>
    ensures { (ns : NameValues) → Knows names.now ns → entry_list result ≡ planned ns (statement_seen statement.now) }
{
    match statement {
        Statement::Direct(Directive::Plans(cpu, step, vector)) => {
            Some(planned(names, cpu, step, vector))
        }
        _ => None,
    }
}

/// Whether a plan entry stands above another: by the processor, and then by the step.
fn is_above(entry: &Planned, before: &Planned) -> bool
    ensures { result ≡ is_above entry.now before.now }
{
    before.cpu < entry.cpu || entry.cpu == before.cpu && before.step < entry.step
}

/// Whether a line's plan entry doesn't stand above the last one. It is the last from now on.
pub(crate) fn is_out_of_order(last: &mut Option<Planned>, entry: Option<Planned>) -> bool
    ensures order { result ≡ not (follows last.old entry) }
    ensures last { last.new ≡ option_or entry last.old }
{
    let Some(entry) = entry else {
        return false;
    };
    match last.replace(entry) {
        Some(before) => !is_above(&entry, &before),
        None => false,
    }
}
