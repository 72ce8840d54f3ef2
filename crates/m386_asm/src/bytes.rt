//! The bytes of lines.
ghost use Rattle.std.specs.Prelude.{◌≡◌, ◌++◌, ◌+◌, ◌<◌, ◌≤◌, ◌/◌, ◌^◌, OnOk, List as Items, ℕ, drop, length, map, replicate, take};
ghost use Rattle.std.specs.Int.{to_le_bytes, w32};
ghost use Rattle.std.specs.List.{flat_map};
ghost use Rattle.m386_base.specs.Descriptor.{descriptor};
ghost use Rattle.m386_desc.specs.Bytes.{descriptor_bytes};
ghost use Rattle.m386_opmap.specs.Forms.{width_bits};
ghost use Rattle.m386_words.specs.Expressions.{Expression as Value};
ghost use Rattle.m386_words.specs.Seen.{expression_seen};
ghost use Rattle.m386_lines.specs.Directives.{Describes, Gates, Values};
ghost use Rattle.m386_lines.specs.Faults.{meaning_of};
ghost use Rattle.m386_lines.specs.Lines.{Operate};
ghost use Rattle.m386_lines.specs.Seen.{directive_seen, field_seen, instruction_seen, statement_seen};
ghost use Rattle.m386_asm.specs.Bounds.{IsPlace};
ghost use Rattle.m386_asm.specs.Knows.{Knows};
ghost use Rattle.m386_asm.specs.Layout.{HasMade, Laid, Makes, Names as NameValues, directive_bytes, field_value, gate_bytes, moved, tss_bytes, with_field, zero_count};

use crate::spelling::{encode_at, length_at};
use crate::value::{Names, bits_of, wrapped};
use m386_base::desc::Desc;
use m386_base::fault::NoMemory;
use m386_base::list::List;
use m386_base::number::Width;
use m386_desc::bytes::desc_bytes;
use m386_lines::directive::{Directive, Setting};
use m386_lines::instruction::Instruction;
use m386_lines::line::Statement;
use m386_tss::fields::{TSS_LEN, tss_field};
use m386_words::expression::Expression;

/// Appends bytes.
fn put_all(out: &mut List<u8>, bytes: &[u8]) -> Result<(), NoMemory>
    ensures { OnOk result (out.new ≡ out.old ++ bytes.now) }
{
    for byte in bytes {
        out.push(*byte)?;
    }
    Ok(())
}

/// Appends the number of an expression in a field of a width, the lowest byte first.
fn put_value(
    out: &mut List<u8>,
    names: &Names<'_>,
    width: Width,
    value: &Expression<'_>,
) -> Result<(), NoMemory>
    ensures { OnOk result ((ns : NameValues) → Knows names.now ns →
        out.new ≡ out.old ++ take (width_bits width / 8) (to_le_bytes w32 (field_value ns (width_bits width) (expression_seen value.now)))) }
{
    let bits = bits_of(width);
    let bytes = names.field(bits, value).to_le_bytes();
    put_all(out, &bytes[..usize::from(bits / 8)])
}

/// Appends numbers of so many bits.
fn put_values(
    out: &mut List<u8>,
    names: &Names<'_>,
    width: Width,
    values: &[Expression<'_>],
) -> Result<(), NoMemory>
    ensures { OnOk result ((ns : NameValues) → Knows names.now ns → out.new ≡ out.old ++ directive_bytes ns (Values (width_bits width) (map expression_seen values.now))) }
{
    for value in values {
        put_value(out, names, width, value)?;
    }
    Ok(())
}

/// How many bytes that are 0 this number says.
fn zero_count(count: i64) -> u64
    ensures { result ≡ zero_count count }
{
    if count > 0 { count as u64 } else { 0 }
}

/// Appends bytes that are 0.
fn put_zeros(out: &mut List<u8>, count: u64) -> Result<(), NoMemory>
    ensures { OnOk result (out.new ≡ out.old ++ replicate count 0) }
{
    for _done in 0..count {
        out.push(0)?;
    }
    Ok(())
}

/// The bytes of a descriptor with these values (PRM 5.1.1).
fn desc_of(
    names: &Names<'_>,
    base: &Expression<'_>,
    limit: &Expression<'_>,
    access: &Expression<'_>,
    flags: &Expression<'_>,
) -> [u8; 8]
    ensures { (ns : NameValues) → Knows names.now ns →
        result ≡ directive_bytes ns (Describes (expression_seen base.now) (expression_seen limit.now) (expression_seen access.now) (expression_seen flags.now)) }
{
    desc_bytes(&Desc::new(
        names.field(32, base),
        names.field(20, limit),
        names.field(8, access) as u8,
        names.field(4, flags) as u8,
    ))
}

/// The bytes of a gate (PRM 6.3.4, 9.5).
fn gate_bytes(selector: u16, offset: u32, access: u8, count: u8) -> [u8; 8]
    ensures { result ≡ gate_bytes selector offset access count }
{
    let selector = selector.to_le_bytes();
    let offset = offset.to_le_bytes();
    [
        offset[0],
        offset[1],
        selector[0],
        selector[1],
        count,
        access,
        offset[2],
        offset[3],
    ]
}

/// The bytes of a gate with these values.
fn gate_of(
    names: &Names<'_>,
    selector: &Expression<'_>,
    offset: &Expression<'_>,
    access: &Expression<'_>,
    count: &Expression<'_>,
) -> [u8; 8]
    ensures { (ns : NameValues) → Knows names.now ns →
        result ≡ directive_bytes ns (Gates (expression_seen selector.now) (expression_seen offset.now) (expression_seen access.now) (expression_seen count.now)) }
{
    gate_bytes(
        names.field(16, selector) as u16,
        names.field(32, offset),
        names.field(8, access) as u8,
        names.field(5, count) as u8,
    )
}

/// Writes bytes into a segment.
fn write_bytes(segment: &mut [u8], at: usize, bytes: &[u8])
    requires { at + length bytes.now ≤ length segment.old }
    ensures { segment.new ≡ take at segment.old ++ bytes.now ++ drop (at + length bytes.now) segment.old }
{
    segment[at..at + bytes.len()].copy_from_slice(bytes);
}

/// Writes a value into its field of a task state segment (PRM 7.1).
fn write_field(segment: &mut [u8], names: &Names<'_>, setting: &Setting<'_>)
    requires { length segment.old ≡ 104 }
    ensures written { (ns : NameValues) → Knows names.now ns → segment.new ≡ with_field ns segment.old (field_seen setting.now) }
    ensures long { length segment.new ≡ 104 }
{
    let field = tss_field(setting.number);
    let bytes = names.field(8 * field.len, &setting.value).to_le_bytes();
    write_bytes(
        segment,
        usize::from(field.offset),
        &bytes[..usize::from(field.len)],
    );
}

/// The bytes of a task state segment whose fields have these values, and the others 0 (PRM 7.1).
fn task_of(names: &Names<'_>, settings: &[Setting<'_>]) -> [u8; TSS_LEN as usize]
    ensures { (ns : NameValues) → Knows names.now ns → result ≡ tss_bytes ns (map field_seen settings.now) }
{
    let mut segment = [0; TSS_LEN as usize];
    for setting in settings {
        write_field(&mut segment, names, setting);
    }
    segment
}

/// Appends the bytes of a directive.
fn put_directive(
    out: &mut List<u8>,
    names: &Names<'_>,
    directive: &Directive<'_>,
) -> Result<(), NoMemory>
    ensures { OnOk result ((ns : NameValues) → Knows names.now ns → out.new ≡ out.old ++ directive_bytes ns (directive_seen directive.now)) }
{
    match directive {
        Directive::Values(width, values) => put_values(out, names, *width, values.as_slice()),
        Directive::Bytes(bytes) => put_all(out, bytes.as_slice()),
        Directive::Zeros(count) => put_zeros(out, zero_count(*count)),
        Directive::Describes(base, limit, access, flags) => {
            put_all(out, &desc_of(names, base, limit, access, flags))
        }
        Directive::Gates(selector, offset, access, count) => {
            put_all(out, &gate_of(names, selector, offset, access, count))
        }
        Directive::Fields(settings) => put_all(out, &task_of(names, settings.as_slice())),
        _ => Ok(()),
    }
}

/// Appends the bytes of an instruction. Of a jump that reaches no target these are two that are 0.
fn put_instruction(
    out: &mut List<u8>,
    names: &Names<'_>,
    place: u128,
    instruction: &Instruction<'_>,
) -> Result<(), NoMemory>
    requires { IsPlace place }
    ensures { OnOk result ((ns : NameValues) → Knows names.now ns → HasMade ns place (Operate (instruction_seen instruction.now)) out.old out.new) }
{
    match encode_at(names, place, instruction) {
        Some(bytes) => put_all(out, bytes.as_slice()),
        None => put_all(out, &[0, 0]),
    }
}

/// Appends the bytes of a line that begins at a place.
pub(crate) fn put_line(
    out: &mut List<u8>,
    names: &Names<'_>,
    place: u128,
    statement: &Statement<'_>,
) -> Result<(), NoMemory>
    requires { IsPlace place }
    ensures { OnOk result ((ns : NameValues) → Knows names.now ns → HasMade ns place (statement_seen statement.now) out.old out.new) }
{
    match statement {
        Statement::Direct(directive) => put_directive(out, names, directive),
        Statement::Operate(instruction) => put_instruction(out, names, place, instruction),
        _ => Ok(()),
    }
}

/// How many bytes a directive has.
#[tactic(auto, using(crate::proofs::Lengths::lengths))]
fn directive_len(directive: &Directive<'_>) -> u128
    ensures length { (ns : NameValues) → length (directive_bytes ns (directive_seen directive.now)) ≡ result }
    ensures small { result < 2 ^ 69 }
{
    match directive {
        Directive::Values(width, values) => {
            u128::from(bits_of(*width) / 8) * values.as_slice().len() as u128
        }
        Directive::Bytes(bytes) => bytes.as_slice().len() as u128,
        Directive::Zeros(count) => u128::from(zero_count(*count)),
        Directive::Describes(..) => 8,
        Directive::Gates(..) => 8,
        Directive::Fields(_) => u128::from(TSS_LEN),
        _ => 0,
    }
}

/// How many bytes a line of a text has that begins at a place.
pub(crate) fn line_len(names: &Names<'_>, place: u128, statement: &Statement<'_>) -> u128
    requires { IsPlace place }
    // They are as many by any names, so by those of the whole text too.
    ensures length { (ns : NameValues) (line bytes : Items ℕ) → (meaning_of line).statement ≡ statement_seen statement.now → Makes ns place (statement_seen statement.now) bytes → length bytes ≡ result }
    ensures small { result < 2 ^ 69 }
{
    match statement {
        Statement::Direct(directive) => directive_len(directive),
        Statement::Operate(instruction) => length_at(names, place, instruction),
        _ => 0,
    }
}

/// Where the line behind one begins that begins at a place and has so many bytes.
pub(crate) fn moved(place: u128, len: u128, statement: &Statement<'_>) -> u128
    requires place { IsPlace place }
    requires small { len < 2 ^ 69 }
    ensures moved { (l : Laid) → l.meaning.statement ≡ statement_seen statement.now → length l.bytes ≡ len → result ≡ moved place l }
    ensures small { result ≤ place + 2 ^ 69 }
{
    match statement {
        Statement::Nothing | Statement::Assign(..) => place,
        Statement::Direct(Directive::Begins(address)) => {
            u128::from(wrapped(32, i128::from(*address)))
        }
        Statement::Direct(_) | Statement::Operate(_) => place + len,
    }
}
