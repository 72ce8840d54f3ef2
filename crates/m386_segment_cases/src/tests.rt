//! Worked steps: each over a bus of a few bytes, or over every front of the values that it reads.
mod looks;
mod pointers;
mod segments;
mod stacks;

use m386_worked::cases::{Case, over_bytes, over_values};
use m386_worked::cycles::{fetch, joined, read, write};
use m386_worked::states::{at, bare, flagged, loaded, pending};
use m386_worked::texts::all_made;
use std::process::Abort;

/// The step over a bus that holds the bytes of the case.
fn step_over_bytes(rt: &impl Abort, case: &Case<'_>) {
    assert_eq!(rt; over_bytes(case), Ok(()), "{}", case.name);
}

/// The step over each front of what it reads: it wants the next cycle, and at the end it is whole.
fn step_over_values(rt: &impl Abort, case: &Case<'_>) {
    assert_eq!(rt; over_values(case), Ok(()), "{}", case.name);
}

/// Texts of cases: what each shows, by the name that docs/PROVING.md has for it, and how many cases it has.
static TEXTS: [(&str, &str, usize); 20] = [
    ("looks_have_operands_of_their_widths", looks::WIDTHS, 7),
    ("an_rpl_is_raised_in_memory", looks::RAISED, 5),
    (
        "a_pointer_is_an_offset_and_a_selector",
        pointers::POINTERS,
        5,
    ),
    ("each_part_of_a_pointer_may_be_split", pointers::SPLIT, 1),
    ("a_fault_leaves_both_registers", pointers::FAULTS, 5),
    (
        "sixteen_bits_of_a_segment_register_are_stored",
        segments::STORES,
        6,
    ),
    ("a_selector_in_memory_is_two_bytes", segments::MEMORY, 3),
    (
        "a_load_of_ss_holds_requests_back_and_lets_a_trap_through",
        segments::SHADOWS,
        3,
    ),
    (
        "an_access_ends_at_the_limit_of_a_loaded_segment",
        segments::LIMITS,
        3,
    ),
    ("flags_are_pushed", stacks::flags::PUSHES, 3),
    ("popped_flags_trap_and_fault", stacks::flags::POPS, 4),
    ("all_registers_are_pushed", stacks::registers::PUSHES, 4),
    (
        "all_registers_are_popped_but_esp",
        stacks::registers::POPS,
        3,
    ),
    ("leave_takes_the_frame", stacks::registers::LEAVES, 8),
    (
        "the_pointer_goes_by_the_stack_that_was_popped_from",
        stacks::segments::STACKS,
        4,
    ),
    ("pushes_write_below_the_top", stacks::single::PUSHES, 14),
    ("each_push_is_tested", stacks::single::TESTED_PUSHES, 19),
    ("each_pop_is_tested", stacks::single::TESTED_POPS, 12),
    (
        "pops_move_the_pointer_before_they_put",
        stacks::single::POPS,
        8,
    ),
    (
        "a_pop_stands_where_the_write_faults",
        stacks::single::FAULTS,
        5,
    ),
];

#[test]
fn each_case_of_a_text_is_made(rt: HostRuntime) {
    for (shows, text, count) in TEXTS.iter().copied() {
        assert_eq!(rt; all_made(text), Ok(count), "{shows}");
    }
}
