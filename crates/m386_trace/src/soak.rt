//! The line of a run of an image that was made from a number.
ghost use Rattle.std.specs.Prelude.{◌≡◌, ◌≤◌, ◌++◌, ◌∷◌, [], length, codes, decimal};
ghost use Rattle.arrayvec.specs.ArrayString.{array_string_len};
ghost use Rattle.m386_trace.specs.Line.{spaced};
ghost use Rattle.m386_trace.specs.Soak.{claims_in, is_claim_role, soak_text, verdict_fields};

use crate::field::{push_decimal, push_word};
use arrayvec::ArrayString;
use m386_base::ask::{Cycle, Role};
use m386_book::verdict::Verdict;

/// A line so far.
type SoakLine = ArrayString<256>;

/// Whether a role is that of a claim.
fn is_claim_role(role: Role) -> bool
    ensures { result ≡ is_claim_role role }
{
    matches!(
        role,
        Role::ClaimJmp | Role::ClaimCall | Role::ClaimStart | Role::ClaimLtr
    )
}

/// How many cycles have a claim role.
fn claims_in(cycles: &[Cycle]) -> u64
    ensures { result ≡ claims_in cycles.now }
{
    let mut claims = 0;
    for cycle in cycles {
        if is_claim_role(cycle.ask.role) {
            claims += 1;
        }
    }
    claims
}

/// Appends the number of the image, its processors and its tasks.
fn push_image(line: &mut SoakLine, number: u64, cpus: u8, tasks: u8)
    requires { array_string_len line.old ≤ 4 }
    ensures bytes { line.new.bytes ≡ line.old.bytes ++ spaced (decimal number ∷ codes "cpus" ∷ decimal cpus ∷ codes "tasks" ∷ decimal tasks ∷ []) }
    ensures len { array_string_len line.new ≤ 78 }
{
    push_decimal(line, number);
    push_word(line, "cpus");
    push_decimal(line, u64::from(cpus));
    push_word(line, "tasks");
    push_decimal(line, u64::from(tasks));
}

/// Appends how many cycles there are, and how many with a claim role.
fn push_cycles(line: &mut SoakLine, cycles: &[Cycle])
    requires { array_string_len line.old ≤ 78 }
    ensures bytes { line.new.bytes ≡ line.old.bytes ++ spaced (codes "cycles" ∷ decimal (length cycles.now) ∷ codes "claims" ∷ decimal (claims_in cycles.now) ∷ []) }
    ensures len { array_string_len line.new ≤ 134 }
{
    push_word(line, "cycles");
    push_decimal(line, cycles.len() as u64);
    push_word(line, "claims");
    push_decimal(line, claims_in(cycles));
}

/// Appends that a rule fails.
fn push_rule(line: &mut SoakLine, rule: u8)
    requires { array_string_len line.old ≤ 134 }
    ensures bytes { line.new.bytes ≡ line.old.bytes ++ spaced (codes "unclean" ∷ codes "rule" ∷ decimal rule ∷ []) }
    ensures len { array_string_len line.new ≤ 168 }
{
    push_word(line, "unclean");
    push_word(line, "rule");
    push_decimal(line, u64::from(rule));
}

/// Appends that a rule fails at a cycle.
fn push_rule_at(line: &mut SoakLine, rule: u8, index: u64)
    requires { array_string_len line.old ≤ 134 }
    ensures bytes { line.new.bytes ≡ line.old.bytes ++ spaced (codes "unclean" ∷ codes "rule" ∷ decimal rule ∷ codes "at" ∷ decimal index ∷ []) }
    ensures len { array_string_len line.new ≤ 192 }
{
    push_rule(line, rule);
    push_word(line, "at");
    push_decimal(line, index);
}

/// Appends the words of a verdict.
fn push_verdict(line: &mut SoakLine, verdict: &Verdict)
    requires { array_string_len line.old ≤ 134 }
    ensures bytes { line.new.bytes ≡ line.old.bytes ++ spaced (verdict_fields verdict.now) }
    ensures len { array_string_len line.new ≤ 192 }
{
    match verdict {
        Verdict::Clean => push_word(line, "clean"),
        Verdict::Static(rule) => push_rule(line, *rule),
        Verdict::At { rule, index } => push_rule_at(line, *rule, *index),
    }
}

/// The line of a run of the image of `number`, with its line feed: the image's processors and tasks, the run's cycles, those of them with a
/// claim role, and the verdict on it. It takes no memory.
#[tactic(auto, unfolding(crate::specs::Soak::soak_text))]
pub fn soak_line(
    number: u64,
    cpus: u8,
    tasks: u8,
    cycles: &[Cycle],
    verdict: &Verdict,
) -> ArrayString<256>
    ensures { result.bytes ≡ soak_text number cpus tasks cycles.now verdict.now }
{
    let mut line = ArrayString::new();
    line.push_str("soak");
    push_image(&mut line, number, cpus, tasks);
    push_cycles(&mut line, cycles);
    push_verdict(&mut line, verdict);
    line.push_str("\n");
    line
}
