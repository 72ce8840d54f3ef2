//! Which operations this crate has, and at which level they may be done.
ghost use Rattle.std.specs.Prelude.{◌≡◌};
ghost use Rattle.m386_system.specs.Work.{control_move_of, work_of};

use m386_opmap::name::Name;
use m386_opmap::op::Arg;

/// A table with a register of its own (PRM 4.1.2).
#[derive(Clone, Copy, Debug, PartialEq, Eq)]
pub enum Table {
    /// The GDT.
    Global,
    /// The IDT.
    Interrupts,
}

/// A word of the processor's own that a program at any level may see.
#[derive(Clone, Copy, Debug, PartialEq, Eq)]
pub enum SystemWord {
    /// The selector of LDTR.
    LocalTable,
    /// The selector of TR.
    Task,
    /// The machine status word, the lower half of CR0.
    Status,
}

/// A privileged operation (PRM 6.3.5.1).
#[derive(Clone, Copy, Debug, PartialEq, Eq)]
pub enum Privileged {
    /// HLT.
    Halt,
    /// LGDT or LIDT.
    LoadTable(Table),
    /// LLDT.
    LoadLocalTable,
    /// LTR.
    LoadTask,
    /// LMSW.
    LoadStatus,
    /// MOV to CR0 from a general register, by its number.
    LoadControl(u8),
    /// MOV from CR0 to a general register, by its number.
    StoreControl(u8),
    /// CLTS.
    ClearTaskSwitched,
}

/// An operation that isn't privileged.
#[derive(Clone, Copy, Debug, PartialEq, Eq)]
pub enum Unprivileged {
    /// SGDT or SIDT.
    StoreTable(Table),
    /// SLDT, STR or SMSW.
    StoreWord(SystemWord),
    /// STI with true, CLI with false.
    PutInterrupts(bool),
    /// WAIT.
    Wait,
    /// An operation for a coprocessor.
    Escape,
}

/// What an operation does, by whether it is privileged.
#[derive(Clone, Copy, Debug, PartialEq, Eq)]
pub enum Work {
    /// It is.
    Privileged(Privileged),
    /// It isn't.
    Unprivileged(Unprivileged),
}

/// MOV with CR0.
fn control_move_of(args: &[Arg]) -> Option<Work>
    ensures { result ≡ control_move_of args.now }
{
    match args {
        [Arg::Cr0, Arg::Reg(register)] => {
            Some(Work::Privileged(Privileged::LoadControl(*register)))
        }
        [Arg::Reg(register), Arg::Cr0] => {
            Some(Work::Privileged(Privileged::StoreControl(*register)))
        }
        _ => None,
    }
}

/// The work of a name with its operands, where this crate has it.
pub fn work_of(name: Name, args: &[Arg]) -> Option<Work>
    ensures { result ≡ work_of name args.now }
{
    Some(match name {
        Name::Hlt => Work::Privileged(Privileged::Halt),
        Name::Lgdt => Work::Privileged(Privileged::LoadTable(Table::Global)),
        Name::Lidt => Work::Privileged(Privileged::LoadTable(Table::Interrupts)),
        Name::Lldt => Work::Privileged(Privileged::LoadLocalTable),
        Name::Ltr => Work::Privileged(Privileged::LoadTask),
        Name::Lmsw => Work::Privileged(Privileged::LoadStatus),
        Name::Clts => Work::Privileged(Privileged::ClearTaskSwitched),
        Name::Sgdt => Work::Unprivileged(Unprivileged::StoreTable(Table::Global)),
        Name::Sidt => Work::Unprivileged(Unprivileged::StoreTable(Table::Interrupts)),
        Name::Sldt => Work::Unprivileged(Unprivileged::StoreWord(SystemWord::LocalTable)),
        Name::Str => Work::Unprivileged(Unprivileged::StoreWord(SystemWord::Task)),
        Name::Smsw => Work::Unprivileged(Unprivileged::StoreWord(SystemWord::Status)),
        Name::Cli => Work::Unprivileged(Unprivileged::PutInterrupts(false)),
        Name::Sti => Work::Unprivileged(Unprivileged::PutInterrupts(true)),
        Name::Wait => Work::Unprivileged(Unprivileged::Wait),
        Name::Esc => Work::Unprivileged(Unprivileged::Escape),
        Name::Mov => return control_move_of(args),
        _ => return None,
    })
}
