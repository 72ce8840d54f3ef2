//! Rules for a descriptor that a selector names, as tables in order, and what a table is read over.
ghost use Rattle.std.specs.Prelude.{◌≡◌};
ghost use Rattle.m386_segload.specs.Rules.{stack_rules, data_rules, local_table_rules, task_stack_rules, inner_stack_rules, task_rules, event_gate_rules, target_rules, jump_target_rules, call_gate_rules, direct_rules, return_rules, offset_rules};

use m386_base::desc::Desc;
use m386_base::exception::Exception;

/// All that the rules for one descriptor read.
#[derive(Clone, Copy, Debug, PartialEq, Eq)]
pub struct Candidate {
    /// The selector.
    pub selector: u16,
    /// Its descriptor, `None` where it is null or lies outside its table.
    pub desc: Option<Desc>,
    /// The privilege level that it is tested for, 0 to 3.
    pub level: u8,
    /// The error code of a rule that names the selector.
    pub code: u16,
    /// The offset in the segment that is wanted.
    pub offset: u32,
}

/// What a rule requires.
#[derive(Clone, Copy, Debug, PartialEq, Eq)]
pub enum Requirement {
    /// The selector isn't null.
    NotNull,
    /// It lies in its table.
    InTable,
    /// Its RPL is the level.
    RplIsLevel,
    /// Its RPL is at least the level.
    RplAtLeastLevel,
    /// Writable data.
    Writable,
    /// Data or readable code.
    Readable,
    /// Code that CS may take.
    Code,
    /// An LDT.
    LocalTable,
    /// A 386 TSS that isn't busy.
    AvailableTss,
    /// An interrupt or trap gate.
    EventGate,
    /// A type that LAR knows.
    WithRights,
    /// A type that LSL knows.
    WithLimit,
    /// DPL is the level.
    DplIsLevel,
    /// DPL is at most the level.
    DplAtMostLevel,
    /// DPL is at least the level.
    DplAtLeastLevel,
    /// Conforming code, or DPL is the level.
    ConformingOrLevel,
    /// Conforming code, or DPL is at least the level and RPL.
    MayBeData,
    /// Conforming code with DPL at most the level, or RPL at most the level and DPL the level.
    ReachedDirectly,
    /// Conforming code with DPL at most RPL, or DPL is RPL.
    RunsAtRpl,
    /// DPL is at least the level and RPL.
    ReachedFrom,
    /// ESP and SS of the level lie in the TSS.
    HoldsStack,
    /// The offset lies in the segment.
    HoldsOffset,
    /// Present.
    Present,
}

/// A rule: what it requires, the exception where that isn't met, and whether the error code names the selector or is 0.
#[derive(Clone, Copy, Debug, PartialEq, Eq)]
pub struct Rule {
    /// What it requires.
    pub requirement: Requirement,
    /// The exception.
    pub exception: Exception,
    /// Whether the error code names the selector.
    pub named: bool,
}

macro_rules! rules {
    ($($requirement:ident $exception:ident $named:literal;)*) => {
        [$(Rule { requirement: Requirement::$requirement, exception: Exception::$exception, named: $named }),*]
    };
}

/// A load of SS; the level is CPL (PRM 17.2.2.11, MOV).
pub const STACK_RULES: [Rule; 6] = rules![
    NotNull GeneralProtection false;
    InTable GeneralProtection true;
    RplIsLevel GeneralProtection true;
    Writable GeneralProtection true;
    DplIsLevel GeneralProtection true;
    Present StackFault true;
];

/// A load of DS, ES, FS or GS by a selector that isn't null; the level is CPL (PRM 17.2.2.11, MOV).
pub const DATA_RULES: [Rule; 4] = rules![
    InTable GeneralProtection true;
    Readable GeneralProtection true;
    MayBeData GeneralProtection true;
    Present SegmentNotPresent true;
];

/// A load of LDTR by a selector that isn't null (PRM 17.2.2.11, LLDT).
pub const LOCAL_TABLE_RULES: [Rule; 3] = rules![
    InTable GeneralProtection true;
    LocalTable GeneralProtection true;
    Present SegmentNotPresent true;
];

/// A load of TR (PRM 17.2.2.11, LTR).
pub const TASK_RULES: [Rule; 4] = rules![
    NotNull GeneralProtection false;
    InTable GeneralProtection true;
    AvailableTss GeneralProtection true;
    Present SegmentNotPresent true;
];

/// The TSS of a stack change to the level (PRM 6.3.4.1).
pub const TASK_STACK_RULES: [Rule; 2] = rules![
    InTable InvalidTss false;
    HoldsStack InvalidTss true;
];

/// The SS of an inner stack (PRM 6.3.4.1).
pub const INNER_STACK_RULES: [Rule; 6] = rules![
    NotNull InvalidTss false;
    InTable InvalidTss true;
    RplIsLevel InvalidTss true;
    DplIsLevel InvalidTss true;
    Writable InvalidTss true;
    Present StackFault true;
];

/// The entry of an event in the IDT; the level is CPL for INT n, INT3 and INTO, and else 0 (PRM 9.5, 9.6).
pub const EVENT_GATE_RULES: [Rule; 4] = rules![
    InTable GeneralProtection true;
    EventGate GeneralProtection true;
    DplAtLeastLevel GeneralProtection true;
    Present SegmentNotPresent true;
];

/// The code that a gate leads a CALL or an event to; the level is CPL (PRM 6.3.4, 9.6.1.4).
pub const TARGET_RULES: [Rule; 5] = rules![
    NotNull GeneralProtection false;
    InTable GeneralProtection true;
    Code GeneralProtection true;
    DplAtMostLevel GeneralProtection true;
    Present SegmentNotPresent true;
];

/// The code that a gate leads a JMP to; the level is CPL (PRM 6.3.4).
pub const JUMP_TARGET_RULES: [Rule; 6] = rules![
    NotNull GeneralProtection false;
    InTable GeneralProtection true;
    Code GeneralProtection true;
    DplAtMostLevel GeneralProtection true;
    ConformingOrLevel GeneralProtection true;
    Present SegmentNotPresent true;
];

/// A call gate; the level is CPL (PRM 6.3.4).
pub const CALL_GATE_RULES: [Rule; 2] = rules![
    ReachedFrom GeneralProtection true;
    Present SegmentNotPresent true;
];

/// Code that a far JMP or CALL names itself; the level is CPL (PRM 6.3.3).
pub const DIRECT_RULES: [Rule; 5] = rules![
    NotNull GeneralProtection false;
    InTable GeneralProtection true;
    Code GeneralProtection true;
    ReachedDirectly GeneralProtection true;
    Present SegmentNotPresent true;
];

/// CS of RETF and IRET; the level is CPL (PRM 6.3.4.2).
pub const RETURN_RULES: [Rule; 6] = rules![
    NotNull GeneralProtection false;
    InTable GeneralProtection true;
    RplAtLeastLevel GeneralProtection true;
    Code GeneralProtection true;
    RunsAtRpl GeneralProtection true;
    Present SegmentNotPresent true;
];

/// The offset that a transfer leads to (PRM 6.3.1.2).
pub const OFFSET_RULES: [Rule; 1] = rules![
    HoldsOffset GeneralProtection false;
];

/// The constants are the tables of the definition.
pub fn tables_are_those_of_the_definition()
    ensures stack { STACK_RULES ≡ stack_rules }
    ensures data { DATA_RULES ≡ data_rules }
    ensures local_table { LOCAL_TABLE_RULES ≡ local_table_rules }
    ensures task { TASK_RULES ≡ task_rules }
    ensures task_stack { TASK_STACK_RULES ≡ task_stack_rules }
    ensures inner_stack { INNER_STACK_RULES ≡ inner_stack_rules }
    ensures event_gate { EVENT_GATE_RULES ≡ event_gate_rules }
    ensures target { TARGET_RULES ≡ target_rules }
    ensures jump_target { JUMP_TARGET_RULES ≡ jump_target_rules }
    ensures call_gate { CALL_GATE_RULES ≡ call_gate_rules }
    ensures direct { DIRECT_RULES ≡ direct_rules }
    ensures returned { RETURN_RULES ≡ return_rules }
    ensures offset { OFFSET_RULES ≡ offset_rules }
{}
