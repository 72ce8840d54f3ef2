//! Whether a test of the check table holds.
ghost use Rattle.std.specs.Prelude.{◌≡◌, ◌<◌, None};
ghost use Rattle.m386_checks.specs.Holds.{test_holds, is_start, is_jump, mark_wanted, new_cpl, selector_at, descriptor_at};

use crate::descriptor::{
    code, inside, is_there, long_enough, marked, of_386, of_level, reached, readable, runs, table,
    usable, writable,
};
use crate::facts::{Facts, SwitchKind};
use crate::table::Test;
use m386_base::desc::Desc;
use m386_base::segments::{CS, SS};
use m386_desc::selector::{in_ldt, is_null, rpl};

/// Whether a test holds of these facts. `seg` is the number of the data segment register whose turn it is.
#[tactic(auto, unfolding(crate::specs::Holds::test_holds))]
pub fn holds(test: Test, facts: &Facts, seg: u8) -> bool
    requires { seg < 6 }
    ensures { result ≡ test_holds test facts.now seg }
{
    match test {
        Test::TrUsable => facts.kind == SwitchKind::Start || facts.tr_usable,
        Test::TssInGdt => !is_null(facts.selector) && !in_ldt(facts.selector) && facts.in_gdt,
        Test::TssOf386 => of_386(facts.tss),
        Test::TssPrivilege => !(facts.direct && jumps(facts.kind))
            || reached(facts.tss, facts.cpl, facts.rpl),
        Test::TssState => marked(facts.tss, facts.kind == SwitchKind::Iret),
        Test::TssPresent => is_there(facts.tss),
        Test::TssLimit => long_enough(facts.tss),
        Test::LdtInGdt => is_null(facts.ldt) || (!in_ldt(facts.ldt) && table(facts.ldt_desc)),
        Test::LdtPresent => is_null(facts.ldt) || is_there(facts.ldt_desc),
        Test::CsCode => !is_null(selector(facts, CS)) && code(descriptor(facts, CS)),
        Test::CsPrivilege => runs(descriptor(facts, CS), rpl(selector(facts, CS))),
        Test::CsPresent => is_there(descriptor(facts, CS)),
        Test::SsWritable => !is_null(selector(facts, SS)) && writable(descriptor(facts, SS)),
        Test::SsPrivilege => rpl(selector(facts, SS)) == level(facts)
            && of_level(descriptor(facts, SS), level(facts)),
        Test::SsPresent => is_there(descriptor(facts, SS)),
        Test::DataReadable => is_null(selector(facts, seg)) || readable(descriptor(facts, seg)),
        Test::DataPrivilege => {
            is_null(selector(facts, seg))
                || usable(
                    descriptor(facts, seg),
                    level(facts),
                    rpl(selector(facts, seg)),
                )
        }
        Test::DataPresent => is_null(selector(facts, seg)) || is_there(descriptor(facts, seg)),
        Test::EipInLimit => inside(descriptor(facts, CS), facts.eip),
    }
}

/// The selector of a segment register of the new task.
pub fn selector(facts: &Facts, seg: u8) -> u16
    requires { seg < 6 }
    ensures { result ≡ selector_at facts.now seg }
{
    facts.segs[seg as usize]
}

/// The descriptor of a segment register of the new task.
fn descriptor(facts: &Facts, seg: u8) -> Option<Desc>
    requires { seg < 6 }
    ensures { result ≡ descriptor_at facts.now seg }
{
    facts.seg_descs[seg as usize]
}

/// The new task's privilege level.
fn level(facts: &Facts) -> u8
    ensures { result ≡ new_cpl facts.now }
{
    rpl(selector(facts, CS))
}

/// Whether it is a JMP or a CALL.
fn jumps(kind: SwitchKind) -> bool
    ensures { result ≡ is_jump kind }
{
    matches!(kind, SwitchKind::Jmp | SwitchKind::Call)
}
