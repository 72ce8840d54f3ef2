//! Worked steps: each over a bus of a few bytes, or over every front of the values that it reads.
mod call_gates;
mod event_gates;
mod inner_stacks;
mod near;
mod returns;
mod task_gates;
mod tasks;
mod transfers;

use m386_worked::cases::{Case, bus_of, over_bytes, over_values};
use m386_worked::cycles::fetch;
use m386_worked::states::{at, bare, flagged, in_mode, loaded, pending};
use m386_worked::texts::made_behind;
use std::process::Abort;

/// The step over a bus that holds the bytes of the case.
fn step_over_bytes(rt: &impl Abort, case: &Case<'_>) {
    assert_eq!(rt; over_bytes(case), Ok(()), "{}", case.name);
}

/// The step over each front of what it reads: it wants the next cycle, and at the end it is whole.
fn step_over_values(rt: &impl Abort, case: &Case<'_>) {
    assert_eq!(rt; over_values(case), Ok(()), "{}", case.name);
}

/// Texts of cases: what each shows, by the name that docs/PROVING.md has for it, the text before it, and how many cases it has.
static TEXTS: [(&str, &str, &str, usize); 18] = [
    (
        "gates_to_the_same_level_keep_the_stack",
        transfers::OUTER,
        call_gates::SAME_LEVEL,
        3,
    ),
    (
        "the_target_of_a_gate_is_marked",
        transfers::OUTER,
        call_gates::MARKED,
        1,
    ),
    (
        "the_task_state_segment_holds_the_new_stack",
        transfers::OUTER,
        inner_stacks::TASKS,
        8,
    ),
    (
        "parameters_are_copied_the_farthest_first",
        transfers::OUTER,
        inner_stacks::COPIES,
        2,
    ),
    (
        "a_stack_may_be_addressed_by_sp",
        transfers::OUTER,
        inner_stacks::HALVES,
        2,
    ),
    (
        "each_push_and_each_copy_is_tested",
        transfers::OUTER,
        inner_stacks::TESTED,
        8,
    ),
    ("targets_are_taken_by_their_width", "", near::WIDTHS, 6),
    ("targets_stand_in_memory", "", near::MEMORY, 4),
    ("a_target_lies_inside_the_limit", "", near::LIMITS, 8),
    ("each_pop_is_tested", transfers::OUTER, returns::TESTED, 4),
    (
        "a_far_return_to_the_same_level_releases_its_parameters",
        transfers::OUTER,
        returns::SAME_LEVEL,
        4,
    ),
    (
        "a_far_return_to_an_outer_level_changes_all_segments",
        transfers::OUTER,
        returns::OUTER_LEVEL,
        3,
    ),
    (
        "near_calls_push_behind_the_test_of_their_target",
        transfers::OUTER,
        returns::NEAR,
        11,
    ),
    (
        "direct_transfers_make_their_cycles",
        transfers::OUTER,
        transfers::CYCLES,
        3,
    ),
    (
        "each_push_of_a_call_is_tested",
        transfers::OUTER,
        transfers::PUSHES,
        2,
    ),
    (
        "conforming_code_runs_at_the_old_level",
        transfers::OUTER,
        transfers::CONFORMING,
        1,
    ),
    (
        "the_longest_step_is_a_call_that_copies",
        transfers::OUTER,
        inner_stacks::LONGEST,
        1,
    ),
    (
        "far_pointers_stand_in_memory",
        transfers::OUTER,
        transfers::POINTERS,
        4,
    ),
];

#[test]
fn each_case_of_a_text_is_made(rt: HostRuntime) {
    for (shows, start, text, count) in TEXTS.iter().copied() {
        assert_eq!(rt; made_behind(start, text), Ok(count), "{shows}");
    }
}
