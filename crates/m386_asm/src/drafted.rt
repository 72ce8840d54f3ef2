//! The image as far as the lines lay it out.
ghost use Rattle.std.specs.Prelude.{◌≡◌, ◌++◌, ◌∷◌, [], ◌≤◌, if◌then◌else◌, length, IfOk, OnOk, List as Items, ℕ};
ghost use Rattle.m386_words.specs.Seen.{expression_seen};
ghost use Rattle.m386_lines.specs.Lines.{Direct, Meaning as MeaningSeen};
ghost use Rattle.m386_lines.specs.Seen.{directive_seen, statement_seen};
ghost use Rattle.m386_asm.specs.Bounds.{IsPlace};
ghost use Rattle.m386_asm.specs.Drafts.{IsDraft, IsHeaded, task_bits, with_item};
ghost use Rattle.m386_asm.specs.Knows.{Knows};
ghost use Rattle.m386_asm.specs.Layout.{Laid, Makes, Names as NameValues, cpus_of, entry_of, field_value, image_of, memory_of, names_of, number_in};

use crate::plan::planned;
use crate::sections::Sections;
use crate::value::Names;
use m386_base::fault::NoMemory;
use m386_base::list::List;
use m386_image::image::{Image, Planned, TableAt};
use m386_lines::directive::Directive;
use m386_lines::line::Statement;
use m386_words::expression::Expression;
use std::alloc::Global;

/// An image that grows line by line.
#[derive(Drop)]
pub(crate) struct Draft {
    gdt: TableAt,
    idt: TableAt,
    /// Where each processor starts.
    words: [u32; 8],
    /// Whether each processor starts in a task.
    tasks: [bool; 8],
    plan: List<Planned>,
    sections: Sections,
}

/// A table that isn't named.
const NO_TABLE: TableAt = TableAt { base: 0, limit: 0 };

/// The table at these values.
fn table(names: &Names<'_>, base: &Expression<'_>, limit: &Expression<'_>) -> TableAt
    ensures { (ns : NameValues) → Knows names.now ns →
        result ≡ record { base = field_value ns 32 (expression_seen base.now); limit = field_value ns 16 (expression_seen limit.now) } }
{
    TableAt {
        base: names.field(32, base),
        limit: names.field(16, limit) as u16,
    }
}

/// What a processor's bit adds to a number, if it is set.
fn bit(in_task: bool, worth: u8) -> u8
    ensures value { result ≡ (if in_task then worth else 0) }
    ensures small { result ≤ worth }
{
    if in_task { worth } else { 0 }
}

/// The flags of an image: the bits of the processors that start in a task.
fn flags_of(tasks: [bool; 8]) -> u8
    ensures { result ≡ task_bits tasks }
{
    bit(tasks[0], 1)
        + bit(tasks[1], 2)
        + bit(tasks[2], 4)
        + bit(tasks[3], 8)
        + bit(tasks[4], 16)
        + bit(tasks[5], 32)
        + bit(tasks[6], 64)
        + bit(tasks[7], 128)
}

impl Draft {
    /// The image of no lines.
    pub(crate) fn new(alloc: Global) -> Draft
        ensures { (ns : NameValues) → IsDraft ns [] result }
    {
        Draft {
            gdt: NO_TABLE,
            idt: NO_TABLE,
            words: [0; 8],
            tasks: [false; 8],
            plan: List::new(alloc),
            sections: Sections::new(alloc),
        }
    }

    /// Sets where a processor starts, if there may be such a processor.
    fn start(&mut self, cpu: i128, word: u32, in_task: bool)
        ensures { self.new ≡ record self.old { words = with_item self.old.words cpu word; tasks = with_item self.old.tasks cpu in_task } }
    {
        if 0 <= cpu && cpu < 8 {
            let cpu = cpu as usize;
            self.words[cpu] = word;
            self.tasks[cpu] = in_task;
        }
    }

    /// Takes a header or a plan entry.
    fn take_directive(
        &mut self,
        names: &Names<'_>,
        directive: &Directive<'_>,
    ) -> Result<(), NoMemory>
        ensures { OnOk result ((ns : NameValues) → Knows names.now ns → IsHeaded ns (Direct (directive_seen directive.now)) self.old self.new) }
    {
        match directive {
            Directive::SetsGdt(base, limit) => self.gdt = table(names, base, limit),
            Directive::SetsIdt(base, limit) => self.idt = table(names, base, limit),
            Directive::StartsBare(cpu, eip) => {
                self.start(names.value(cpu), names.field(32, eip), false);
            }
            Directive::StartsTask(cpu, selector) => {
                self.start(names.value(cpu), names.field(16, selector), true);
            }
            Directive::Plans(cpu, step, vector) => {
                self.plan.push(planned(names, cpu, step, vector))?;
            }
            _ => {}
        }
        Ok(())
    }

    /// Takes a header or a plan entry, if a line is one.
    fn take_header(&mut self, names: &Names<'_>, statement: &Statement<'_>) -> Result<(), NoMemory>
        ensures { OnOk result ((ns : NameValues) → Knows names.now ns → IsHeaded ns (statement_seen statement.now) self.old self.new) }
    {
        match statement {
            Statement::Direct(directive) => self.take_directive(names, directive),
            Statement::Nothing | Statement::Assign(..) | Statement::Operate(_) => Ok(()),
        }
    }

    /// Takes a line that begins at a place.
    pub(crate) fn take(
        &mut self,
        alloc: Global,
        names: &Names<'_>,
        place: u128,
        statement: &Statement<'_>,
    ) -> Result<(), NoMemory>
        requires { IsPlace place }
        ensures { OnOk result ((ns : NameValues) (ls : Items Laid) → Knows names.now ns → IsDraft ns ls self.old →
            (meaning : MeaningSeen) → meaning.statement ≡ statement_seen statement.now → (text : Items ℕ) →
            (bytes : Items ℕ) × Makes ns place (statement_seen statement.now) bytes ×
            IsDraft ns (ls ++ record { text = text; meaning = meaning; bytes = bytes } ∷ []) self.new) }
    {
        self.take_header(names, statement)?;
        self.sections.take(alloc, names, place, statement)
    }

    /// The whole image.
    pub(crate) fn image(self, memory: u32, cpus: u8) -> Result<Image, NoMemory>
        ensures exact { IfOk result (λ image. (ls : Items Laid) → IsDraft (names_of ls) ls self → number_in (memory_of ls) ≡ memory → number_in (cpus_of ls) ≡ cpus →
            image ≡ image_of ls) }
        ensures short { IfOk result (λ image. (ns : NameValues) (ls : Items Laid) → IsDraft ns ls self → (length image.plan ≤ length ls) × (length image.sections ≤ length ls)) }
    {
        let Draft {
            gdt,
            idt,
            words,
            tasks,
            plan,
            sections,
        } = self;
        let sections = sections.all()?;
        Ok(Image {
            memory,
            cpus,
            flags: flags_of(tasks),
            gdt,
            idt,
            starts: words,
            plan,
            sections,
        })
    }
}
