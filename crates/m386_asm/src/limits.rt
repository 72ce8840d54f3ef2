//! The values of a line: their fields and their limits.
ghost use Rattle.std.specs.Prelude.{◌≡◌, ◌&&◌, ◌++◌, ◌==◌, ◌≤◌, IfOk, OnOk, List as Items, map, not, pos, ℕ};
ghost use Rattle.std.specs.List.{flat_map, list_any};
ghost use Rattle.m386_opmap.specs.Forms.{width_bits};
ghost use Rattle.m386_words.specs.Expressions.{Expression as Value};
ghost use Rattle.m386_words.specs.Seen.{expression_seen};
ghost use Rattle.m386_lines.specs.Seen.{argument_seen, directive_seen, field_seen, statement_seen};
ghost use Rattle.m386_asm.specs.Knows.{Knows};
ghost use Rattle.m386_asm.specs.Layout.{Names as NameValues, arg_fields, directive_fields, expressions_of, fields_of, is_below, is_between, is_in_field, is_unknown, is_up_to, keeps_limits, limited, task_field, value, wrapped};
ghost use Rattle.m386_asm.specs.Limits.{limit_seen};

use crate::field::Field;
use crate::survey::Survey;
use crate::value::{Names, bits_of, is_in_field, wrapped};
use m386_base::fault::NoMemory;
use m386_base::list::List;
use m386_base::number::Width;
use m386_lines::directive::{Directive, Setting};
use m386_lines::instruction::{Argument, Instruction};
use m386_lines::line::Statement;
use m386_tss::fields::tss_field;
use m386_words::expression::Expression;
use std::alloc::Global;

/// A number with the bits of its field.
fn field<'a>(bits: u8, value: &Expression<'a>) -> Field<'a>
    requires { (1 ≤ bits) × (bits ≤ 32) }
    ensures { limit_seen result ≡ (bits, expression_seen value.now) }
{
    Field {
        bits,
        value: *value,
    }
}

/// Appends numbers with the bits of their fields.
fn put<'a>(out: &mut List<Field<'a>>, fields: &[Field<'a>]) -> Result<(), NoMemory>
    ensures { OnOk result (map limit_seen out.new ≡ map limit_seen out.old ++ map limit_seen fields.now) }
{
    for field in fields {
        out.push(*field)?;
    }
    Ok(())
}

/// Appends the numbers of an operand.
fn put_argument<'a>(out: &mut List<Field<'a>>, argument: &Argument<'a>) -> Result<(), NoMemory>
    ensures { OnOk result (map limit_seen out.new ≡ map limit_seen out.old ++ arg_fields (argument_seen argument.now)) }
{
    match argument {
        Argument::Fixed(_) => Ok(()),
        Argument::Immediate(width, number) => put(out, &[field(bits_of(*width), number)]),
        Argument::Target(target) => put(out, &[field(32, target)]),
        Argument::Far(selector, offset) => put(out, &[field(16, selector), field(32, offset)]),
        Argument::At(place) => put(out, &[field(32, &place.offset)]),
    }
}

/// Appends the numbers of an instruction.
fn put_arguments<'a>(out: &mut List<Field<'a>>, arguments: &[Argument<'a>]) -> Result<(), NoMemory>
    ensures { OnOk result (map limit_seen out.new ≡ map limit_seen out.old ++ flat_map arg_fields (map argument_seen arguments.now)) }
{
    for argument in arguments {
        put_argument(out, argument)?;
    }
    Ok(())
}

/// Appends numbers of so many bits.
fn put_values<'a>(
    out: &mut List<Field<'a>>,
    width: Width,
    values: &[Expression<'a>],
) -> Result<(), NoMemory>
    ensures { OnOk result (map limit_seen out.new ≡ map limit_seen out.old ++ map (λ (e : Value). (width_bits width, e)) (map expression_seen values.now)) }
{
    for value in values {
        out.push(field(bits_of(width), value))?;
    }
    Ok(())
}

/// Appends the values of fields of a task state segment.
fn put_task<'a>(out: &mut List<Field<'a>>, settings: &[Setting<'a>]) -> Result<(), NoMemory>
    ensures { OnOk result (map limit_seen out.new ≡ map limit_seen out.old ++ map task_field (map field_seen settings.now)) }
{
    for setting in settings {
        out.push(field(8 * tss_field(setting.number).len, &setting.value))?;
    }
    Ok(())
}

/// Appends the numbers of a directive.
fn put_directive<'a>(out: &mut List<Field<'a>>, directive: &Directive<'a>) -> Result<(), NoMemory>
    ensures { OnOk result (map limit_seen out.new ≡ map limit_seen out.old ++ directive_fields (directive_seen directive.now)) }
{
    match directive {
        Directive::SetsGdt(base, limit) | Directive::SetsIdt(base, limit) => {
            put(out, &[field(32, base), field(16, limit)])
        }
        Directive::StartsBare(_, eip) => put(out, &[field(32, eip)]),
        Directive::StartsTask(_, selector) => put(out, &[field(16, selector)]),
        Directive::Plans(cpu, step, vector) => {
            put(out, &[field(8, cpu), field(32, step), field(8, vector)])
        }
        Directive::Begins(address) => {
            let address = Expression {
                name: None,
                number: *address,
            };
            put(out, &[field(32, &address)])
        }
        Directive::Values(width, values) => put_values(out, *width, values.as_slice()),
        Directive::Describes(base, limit, access, flags) => put(
            out,
            &[
                field(32, base),
                field(20, limit),
                field(8, access),
                field(4, flags),
            ],
        ),
        Directive::Gates(selector, offset, access, count) => put(
            out,
            &[
                field(16, selector),
                field(32, offset),
                field(8, access),
                field(5, count),
            ],
        ),
        Directive::Fields(settings) => put_task(out, settings.as_slice()),
        _ => Ok(()),
    }
}

/// The numbers of a line that have fields.
pub(crate) fn fields_of<'a>(
    alloc: Global,
    statement: &Statement<'a>,
) -> Result<List<Field<'a>>, NoMemory>
    ensures { IfOk result (λ fs. map limit_seen fs ≡ fields_of (statement_seen statement.now)) }
{
    let mut out = List::new(alloc);
    match statement {
        Statement::Direct(directive) => put_directive(&mut out, directive)?,
        Statement::Operate(instruction) => put_arguments(&mut out, instruction.args.as_slice())?,
        _ => {}
    }
    Ok(out)
}

/// Whether the number of a line that has a limit and no field has a name that no line defines.
fn lacks_limited(names: &Names<'_>, statement: &Statement<'_>) -> bool
    ensures { (ns : NameValues) → Knows names.now ns → result ≡ list_any (is_unknown ns) (limited (statement_seen statement.now)) }
{
    match statement {
        Statement::Direct(Directive::SetsMemory(n) | Directive::SetsCpus(n)) => names.lacks(n),
        Statement::Direct(Directive::StartsBare(cpu, _) | Directive::StartsTask(cpu, _)) => {
            names.lacks(cpu)
        }
        _ => false,
    }
}

/// Whether a number with a field has a name that no line defines.
fn lacks_field(names: &Names<'_>, fields: &[Field<'_>]) -> bool
    ensures { (ns : NameValues) → Knows names.now ns → result ≡ list_any (λ (f : ℕ × Value). is_unknown ns f.1) (map limit_seen fields.now) }
{
    for field in fields {
        if names.lacks(&field.value) {
            return true;
        }
    }
    false
}

/// Whether a number of a line has a name that no line defines. The fields are those of the line.
pub(crate) fn has_unknown_name(
    names: &Names<'_>,
    statement: &Statement<'_>,
    fields: &[Field<'_>],
) -> bool
    ensures { (ns : NameValues) → Knows names.now ns → map limit_seen fields.now ≡ fields_of (statement_seen statement.now) →
        result ≡ list_any (is_unknown ns) (expressions_of (statement_seen statement.now)) }
{
    lacks_limited(names, statement) || lacks_field(names, fields)
}

/// Whether a number is in its field.
fn is_held(names: &Names<'_>, field: &Field<'_>) -> bool
    ensures { (ns : NameValues) → Knows names.now ns → result ≡ is_in_field field.now.bits (value ns (expression_seen field.now.value)) }
{
    is_in_field(field.bits, names.value(&field.value))
}

/// Whether a number of a line is outside its field.
pub(crate) fn is_outside_fields(names: &Names<'_>, fields: &[Field<'_>]) -> bool
    ensures { (ns : NameValues) → Knows names.now ns → result ≡ list_any (λ (f : ℕ × Value). not (is_in_field f.0 (value ns f.1))) (map limit_seen fields.now) }
{
    for field in fields {
        if !is_held(names, field) {
            return true;
        }
    }
    false
}

/// Whether a value is from 0 to below a limit, if there is one.
fn is_below(limit: Option<i128>, value: i128) -> bool
    ensures { result ≡ is_below limit value }
{
    match limit {
        Some(limit) => 0 <= value && value < limit,
        None => true,
    }
}

/// Whether a value is not above a limit, if there is one.
pub(crate) fn is_up_to(limit: Option<i128>, value: i128) -> bool
    ensures { result ≡ is_up_to limit value }
{
    match limit {
        Some(limit) => value <= limit,
        None => true,
    }
}

/// Whether a memory may have this size.
pub(crate) fn is_memory_size(size: i128) -> bool
    ensures { result ≡ is_between 4096 16777216 size && wrapped 12 size == 0 }
{
    4096 <= size && size <= 16_777_216 && wrapped(12, size) == 0
}

/// Whether there may be so many processors.
pub(crate) fn is_cpu_count(count: i128) -> bool
    ensures { result ≡ is_between 1 8 count }
{
    1 <= count && count <= 8
}

/// Whether a line's values keep their limits, in a text with so much memory and so many processors.
pub(crate) fn keeps_limits(survey: &Survey<'_>, statement: &Statement<'_>) -> bool
    ensures { (ns : NameValues) → Knows survey.now.names ns → result ≡ keeps_limits ns survey.now.memory survey.now.cpus (statement_seen statement.now) }
{
    let names = &survey.names;
    let Statement::Direct(directive) = statement else {
        return true;
    };
    match directive {
        Directive::SetsMemory(size) => is_memory_size(names.value(size)),
        Directive::SetsCpus(count) => is_cpu_count(names.value(count)),
        Directive::StartsBare(cpu, _)
        | Directive::StartsTask(cpu, _)
        | Directive::Plans(cpu, _, _) => is_below(survey.cpus, names.value(cpu)),
        Directive::Begins(address) => is_up_to(
            survey.memory,
            i128::from(wrapped(32, i128::from(*address))),
        ),
        Directive::Zeros(count) => *count >= 0,
        _ => true,
    }
}
