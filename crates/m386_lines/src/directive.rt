//! Directives.
ghost use Rattle.std.specs.Prelude.{◌<◌};

use m386_base::list::List;
use m386_base::number::Width;
use m386_words::expression::Expression;

/// The value of a field of a task state segment.
#[derive(Clone, Copy, Debug)]
pub struct Setting<'a> {
    /// The field's number (PRM 7.1).
    pub number: u8,
    /// Its value.
    pub value: Expression<'a>,
    /// There is such a field.
    pub ghost known: { number < 27 },
}

/// A directive with what its arguments mean.
#[derive(Drop)]
pub enum Directive<'a> {
    /// `.memory N`: the size of the memory.
    SetsMemory(Expression<'a>),
    /// `.cpus N`: how many processors there are.
    SetsCpus(Expression<'a>),
    /// `.gdt BASE LIMIT`: the global descriptor table.
    SetsGdt(Expression<'a>, Expression<'a>),
    /// `.idt BASE LIMIT`: the interrupt descriptor table.
    SetsIdt(Expression<'a>, Expression<'a>),
    /// `.bare P EIP`: a processor that starts without a task.
    StartsBare(Expression<'a>, Expression<'a>),
    /// `.task P SEL`: a processor that starts in a task.
    StartsTask(Expression<'a>, Expression<'a>),
    /// `.plan P STEP VECTOR`: an interrupt from outside.
    Plans(Expression<'a>, Expression<'a>, Expression<'a>),
    /// `.org ADDR`: where the following bytes begin.
    Begins(i64),
    /// `.byte`, `.word` and `.long`: numbers of so many bits.
    Values(Width, List<Expression<'a>>),
    /// `.hex DIGITS`: bytes.
    Bytes(List<u8>),
    /// `.zero N`: so many bytes that are 0.
    Zeros(i64),
    /// `.desc BASE LIMIT ACCESS FLAGS`: a descriptor (PRM 5.1.1).
    Describes(Expression<'a>, Expression<'a>, Expression<'a>, Expression<'a>),
    /// `.gate SEL OFFSET ACCESS COUNT`: a gate (PRM 6.3.4, 9.5).
    Gates(Expression<'a>, Expression<'a>, Expression<'a>, Expression<'a>),
    /// `.tss FIELD=VALUE ..`: a task state segment (PRM 7.1).
    Fields(List<Setting<'a>>),
}

/// The directives' words.
#[derive(Clone, Copy, Debug, PartialEq, Eq)]
pub enum Form {
    /// `.memory`
    Memory,
    /// `.cpus`
    Cpus,
    /// `.gdt`
    Gdt,
    /// `.idt`
    Idt,
    /// `.bare`
    Bare,
    /// `.task`
    Task,
    /// `.plan`
    Plan,
    /// `.org`
    Org,
    /// `.byte`
    Byte,
    /// `.word`
    Word,
    /// `.long`
    Long,
    /// `.hex`
    Hex,
    /// `.zero`
    Zero,
    /// `.desc`
    Desc,
    /// `.gate`
    Gate,
    /// `.tss`
    Tss,
}
