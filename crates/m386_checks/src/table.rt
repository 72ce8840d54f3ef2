//! The check table of a task switch.
ghost use Rattle.std.specs.Prelude.{◌≡◌, [], ◌∷◌, map};
ghost use Rattle.m386_checks.specs.Table.{check_table};

use crate::facts::Context;

/// What a row of the table tests.
#[derive(Clone, Copy, Debug, PartialEq, Eq)]
pub enum Test {
    /// TR holds a task. A start needs none.
    TrUsable,
    /// The TSS selector isn't null, names the GDT and lies inside it.
    TssInGdt,
    /// The descriptor is that of a 386 TSS.
    TssOf386,
    /// A JMP or CALL that names the TSS itself has the privilege for it.
    TssPrivilege,
    /// The TSS is available, or for IRET busy.
    TssState,
    /// The TSS is present.
    TssPresent,
    /// The limit of the TSS holds all its fields.
    TssLimit,
    /// The LDT selector is null, or it names the GDT, lies inside it and its descriptor is that of an LDT.
    LdtInGdt,
    /// The LDT selector is null, or the LDT is present.
    LdtPresent,
    /// CS isn't null, lies in its table and is code.
    CsCode,
    /// CS has the privilege level of its selector, or is conforming code of at most that level.
    CsPrivilege,
    /// CS is present.
    CsPresent,
    /// SS isn't null, lies in its table and is writable data.
    SsWritable,
    /// SS and its selector have the new privilege level.
    SsPrivilege,
    /// SS is present.
    SsPresent,
    /// The selector is null, or it lies in its table and may be read.
    DataReadable,
    /// The selector is null, or the segment is conforming code or has the privilege for it.
    DataPrivilege,
    /// The selector is null, or the segment is present.
    DataPresent,
    /// EIP lies inside the limit of CS.
    EipInLimit,
}

/// The exception that a row raises.
#[derive(Clone, Copy, Debug, PartialEq, Eq)]
pub enum Raises {
    /// Invalid TSS.
    Ts,
    /// Segment not present.
    Np,
    /// Stack exception.
    Ss,
    /// General protection.
    Gp,
    /// General protection for JMP and CALL, and invalid TSS for all else.
    ByKind,
}

/// What a row speaks of: its error code has this selector.
#[derive(Clone, Copy, Debug, PartialEq, Eq)]
pub enum Subject {
    /// No selector: the error code is 0.
    Nothing,
    /// The selector of the TSS.
    Tss,
    /// The selector of the LDT.
    Ldt,
    /// The selector of CS.
    Cs,
    /// The selector of SS.
    Ss,
    /// The selector of the data segment register whose turn it is.
    Data,
}

/// One row of the check table.
#[derive(Clone, Copy, Debug, PartialEq, Eq)]
pub struct Check {
    /// Its number, 1 to 19.
    pub number: u8,
    /// What it tests.
    pub test: Test,
    /// The exception that it raises where the test is false.
    pub exception: Raises,
    /// The selector that the error code names.
    pub subject: Subject,
    /// The task in which the exception is raised.
    pub context: Context,
}

macro_rules! rows {
    ($($number:literal $test:ident $exception:ident $subject:ident $context:ident;)*) => {
        [$(Check {
            number: $number,
            test: Test::$test,
            exception: Raises::$exception,
            subject: Subject::$subject,
            context: Context::$context,
        }),*]
    };
}

/// The checks of a task switch (PRM 7.5). Rows 16 to 18 are tested for DS, ES, FS and GS in turn.
pub const ROWS: [Check; 19] = rows![
    1 TrUsable Gp Nothing Old;
    2 TssInGdt ByKind Tss Old;
    3 TssOf386 ByKind Tss Old;
    4 TssPrivilege ByKind Tss Old;
    5 TssState ByKind Tss Old;
    6 TssPresent Np Tss Old;
    7 TssLimit Ts Tss Old;
    8 LdtInGdt Ts Ldt New;
    9 LdtPresent Ts Ldt New;
    10 CsCode Ts Cs New;
    11 CsPrivilege Ts Cs New;
    12 CsPresent Np Cs New;
    13 SsWritable Ts Ss New;
    14 SsPrivilege Ts Ss New;
    15 SsPresent Ss Ss New;
    16 DataReadable Ts Data New;
    17 DataPrivilege Ts Data New;
    18 DataPresent Np Data New;
    19 EipInLimit Gp Nothing New;
];

/// The constant is the table of the definition, and its rows are numbered from 1 to 19 in order.
pub fn rows_are_in_order()
    ensures table { ROWS ≡ check_table }
    ensures numbers { map (λ r. r.number) ROWS
        ≡ 1 ∷ 2 ∷ 3 ∷ 4 ∷ 5 ∷ 6 ∷ 7 ∷ 8 ∷ 9 ∷ 10 ∷ 11 ∷ 12 ∷ 13 ∷ 14 ∷ 15 ∷ 16 ∷ 17 ∷ 18 ∷ 19 ∷ [] }
{}
