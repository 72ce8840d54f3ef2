//! What a text gives once: its memory, its processors, its tables, and the start of each processor.
ghost use Rattle.std.specs.Prelude.{◌≡◌, ◌||◌, IfOk, OnOk};
ghost use Rattle.m386_lines.specs.Lines.{Statement as LineStatement};
ghost use Rattle.m386_lines.specs.Seen.{statement_seen};
ghost use Rattle.m386_asm.specs.Knows.{Knows};
ghost use Rattle.m386_asm.specs.Layout.{Names as NameValues, header, same_header};
ghost use Rattle.m386_asm.specs.Walks.{is_given};

use crate::value::Names;
use m386_base::fault::NoMemory;
use m386_lines::directive::Directive;
use m386_lines::line::Statement;
use std::collections::BTreeSet;

/// The headers of the lines so far, each with the processor whose start it gives, or 0.
pub(crate) type Headers = BTreeSet<(u8, i128)>;

/// What a line gives that stands once in a text.
fn header_of(names: &Names<'_>, statement: &Statement<'_>) -> Option<(u8, i128)>
    ensures { (ns : NameValues) → Knows names.now ns → result ≡ header ns (statement_seen statement.now) }
{
    let Statement::Direct(directive) = statement else {
        return None;
    };
    match directive {
        Directive::SetsMemory(_) => Some((0, 0)),
        Directive::SetsCpus(_) => Some((1, 0)),
        Directive::SetsGdt(..) => Some((2, 0)),
        Directive::SetsIdt(..) => Some((3, 0)),
        Directive::StartsBare(cpu, _) | Directive::StartsTask(cpu, _) => {
            Some((4, names.value(cpu)))
        }
        _ => None,
    }
}

/// Whether a line is a header that an earlier line gives. It counts from now on.
#[tactic(auto, using(crate::proofs::Given::given_rules))]
pub(crate) fn is_header_again(
    headers: &mut Headers,
    names: &Names<'_>,
    statement: &Statement<'_>,
) -> Result<bool, NoMemory>
    ensures again { IfOk result (λ again. (ns : NameValues) → Knows names.now ns → again ≡ is_given ns headers.old (statement_seen statement.now)) }
    ensures added { OnOk result ((ns : NameValues) (other : LineStatement) → Knows names.now ns → is_given ns headers.new other ≡ (is_given ns headers.old other || same_header (header ns (statement_seen statement.now)) (header ns other))) }
{
    match header_of(names, statement) {
        Some(header) => {
            let new = headers.insert(header)?;
            Ok(!new)
        }
        None => Ok(false),
    }
}
