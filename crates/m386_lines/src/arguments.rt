//! What directives mean with their arguments.
ghost use Rattle.std.specs.Prelude.{ℕ, ◌≡◌, ◌==◌, ◌∷◌, [], ◌<◌, ◌≤◌, IfOk, IfSome, length, map};
ghost use Rattle.std.specs.List.{list_any};
ghost use Rattle.std.specs.Option.{option_map};
ghost use Rattle.m386_opmap.specs.Forms.{width_bits};
ghost use Rattle.m386_words.specs.Options.{all_some, option_then};
ghost use Rattle.m386_words.specs.Seen.{expression_seen, word_seen};
ghost use Rattle.m386_words.specs.Text.{spaced};
ghost use Rattle.m386_words.specs.Tokens.{seen};
ghost use Rattle.m386_words.specs.Words.{place_among};
ghost use Rattle.m386_lines.specs.Directives.{are_distinct, digits, directives, distinct, expressions, field, fields, form_among, signed_alone, some_values, values, word_alone, words_field};
ghost use Rattle.m386_lines.specs.Seen.{directive_seen, field_seen, fixed_means, form_means, form_seen, part_seen, row_means, words_seen};

use crate::directive::{Directive, Form, Setting};
use crate::parts::{arguments_of, expressions_of, listed_of};
use m386_base::fault::NoMemory;
use m386_base::list::List;
use m386_base::number::Width;
use m386_words::expression::{Expression, expression_of, signed};
use m386_words::number::hex_bytes;
use m386_words::part::solid_of;
use m386_words::token::Token;
use std::alloc::Global;

/// The directives' words.
const FORM_WORDS: [(&[u8], Form); 16] = [
    (b".memory", Form::Memory),
    (b".cpus", Form::Cpus),
    (b".gdt", Form::Gdt),
    (b".idt", Form::Idt),
    (b".bare", Form::Bare),
    (b".task", Form::Task),
    (b".plan", Form::Plan),
    (b".org", Form::Org),
    (b".byte", Form::Byte),
    (b".word", Form::Word),
    (b".long", Form::Long),
    (b".hex", Form::Hex),
    (b".zero", Form::Zero),
    (b".desc", Form::Desc),
    (b".gate", Form::Gate),
    (b".tss", Form::Tss),
];

/// The form that stands beside a word in a table.
#[tactic(auto, using(crate::proofs::Tables::forms))]
fn form_among(rows: &[(&[u8], Form)], word: &[u8]) -> Option<Form>
    ensures { form_seen result ≡ form_among (map row_means rows.now) word.now }
{
    for row in rows {
        if row.0 == word {
            return Some(row.1);
        }
    }
    None
}

/// The directive of a word.
pub fn form_of(word: &[u8]) -> Option<Form>
    ensures { form_seen result ≡ form_among directives word.now }
{
    form_among(&FORM_WORDS, word)
}

/// The words of the fields of a task state segment, each at the place of its number (PRM 7.1).
const FIELD_WORDS: [&[u8]; 27] = [
    b"link", b"esp0", b"ss0", b"esp1", b"ss1", b"esp2", b"ss2", b"cr3", b"eip", b"efl", b"eax",
    b"ecx", b"edx", b"ebx", b"esp", b"ebp", b"esi", b"edi", b"es", b"cs", b"ss", b"ds", b"fs",
    b"gs", b"ldt", b"trap", b"map",
];

/// The place of a word in a table.
#[tactic(auto, using(crate::proofs::Tables::places))]
fn number_among(words: &[&[u8]], word: &[u8]) -> Option<u8>
    requires { length words.now ≤ 256 }
    ensures place { result ≡ place_among (words_seen words.now) word.now }
    ensures within { IfSome result (λ n. n < length words.now) }
{
    for (number, own) in words.iter().enumerate() {
        if *own == word {
            return Some(number as u8);
        }
    }
    None
}

/// The number of a field.
fn field_number(word: &[u8]) -> Option<u8>
    ensures place { result ≡ place_among words_field word.now }
    ensures known { IfSome result (λ n. n < 27) }
{
    number_among(&FIELD_WORDS, word)
}

/// `field=expression`.
fn field<'a>(tokens: &[Token<'a>]) -> Option<Setting<'a>>
    ensures { option_map field_seen result ≡ field (map seen tokens.now) }
{
    let [Token::Word(word), Token::Equals, rest @ ..] = tokens else {
        return None;
    };
    let number = field_number(word)?;
    let value = expression_of(rest)?;
    Some(Setting { number, value })
}

/// Whether a field stands among these.
fn has_field(fields: &[Setting<'_>], number: u8) -> bool
    ensures { result ≡ list_any (λ (f : Setting). f.number == number) fields.now }
{
    fields.iter().any(|field| field.number == number)
}

/// Whether no field stands twice.
#[tactic(auto, unfolding(crate::specs::Directives::are_distinct))]
fn are_distinct(fields: &[Setting<'_>]) -> bool
    ensures { result ≡ are_distinct (map field_seen fields.now) }
{
    match fields {
        [] => true,
        [first, rest @ ..] => !has_field(rest, first.number) && are_distinct(rest),
    }
}

/// The fields of `.tss`, or None where a part is none.
#[tactic(auto, using(crate::proofs::Each::each))]
fn fields_of<'a>(
    alloc: Global,
    parts: &[&[Token<'a>]],
) -> Result<Option<List<Setting<'a>>>, NoMemory>
    ensures { IfOk result (λ fs. option_map (map field_seen) fs ≡ all_some (map field (map part_seen parts.now))) }
{
    let mut fields = List::new(alloc);
    for part in parts {
        match field(part) {
            Some(field) => fields.push(field)?,
            None => return Ok(None),
        }
    }
    Ok(Some(fields))
}

/// The fields of `.tss`, if none stands twice.
fn distinct(fields: List<Setting<'_>>) -> Option<Directive<'_>>
    ensures { option_map directive_seen result ≡ distinct (map field_seen fields.entry) }
{
    if are_distinct(fields.as_slice()) {
        Some(Directive::Fields(fields))
    } else {
        None
    }
}

/// What `.tss` means.
fn task<'a>(alloc: Global, tokens: &[Token<'a>]) -> Result<Option<Directive<'a>>, NoMemory>
    ensures { IfOk result (λ d. option_map directive_seen d ≡ fields (map seen tokens.now)) }
{
    let parts = arguments_of(alloc, tokens)?;
    match fields_of(alloc, parts.as_slice())? {
        Some(fields) => Ok(distinct(fields)),
        None => Ok(None),
    }
}

/// The directive of a form with one expression.
fn of_one(form: Form, n: Expression<'_>) -> Option<Directive<'_>>
    ensures { option_map directive_seen result ≡ fixed_means form (expression_seen n.entry ∷ []) }
{
    match form {
        Form::Memory => Some(Directive::SetsMemory(n)),
        Form::Cpus => Some(Directive::SetsCpus(n)),
        _ => None,
    }
}

/// The directive of a form with two expressions.
fn of_two<'a>(form: Form, first: Expression<'a>, second: Expression<'a>) -> Option<Directive<'a>>
    ensures { option_map directive_seen result ≡ fixed_means form (expression_seen first.entry ∷ expression_seen second.entry ∷ []) }
{
    match form {
        Form::Gdt => Some(Directive::SetsGdt(first, second)),
        Form::Idt => Some(Directive::SetsIdt(first, second)),
        Form::Bare => Some(Directive::StartsBare(first, second)),
        Form::Task => Some(Directive::StartsTask(first, second)),
        _ => None,
    }
}

/// The directive of a form with three expressions.
fn of_three<'a>(
    form: Form,
    first: Expression<'a>,
    second: Expression<'a>,
    third: Expression<'a>,
) -> Option<Directive<'a>>
    ensures { option_map directive_seen result ≡ fixed_means form (expression_seen first.entry ∷ expression_seen second.entry ∷ expression_seen third.entry ∷ []) }
{
    match form {
        Form::Plan => Some(Directive::Plans(first, second, third)),
        _ => None,
    }
}

/// The directive of a form with four expressions.
fn of_four<'a>(
    form: Form,
    first: Expression<'a>,
    second: Expression<'a>,
    third: Expression<'a>,
    fourth: Expression<'a>,
) -> Option<Directive<'a>>
    ensures { option_map directive_seen result ≡ fixed_means form (expression_seen first.entry ∷ expression_seen second.entry ∷ expression_seen third.entry ∷ expression_seen fourth.entry ∷ []) }
{
    match form {
        Form::Desc => Some(Directive::Describes(first, second, third, fourth)),
        Form::Gate => Some(Directive::Gates(first, second, third, fourth)),
        _ => None,
    }
}

/// What a directive with so many expressions between blanks means.
#[tactic(auto, using(crate::proofs::Fixed::counts))]
fn fixed<'a>(form: Form, arguments: &[Expression<'a>]) -> Option<Directive<'a>>
    ensures { option_map directive_seen result ≡ fixed_means form (map expression_seen arguments.now) }
{
    match arguments {
        [n] => of_one(form, *n),
        [first, second] => of_two(form, *first, *second),
        [first, second, third] => of_three(form, *first, *second, *third),
        [first, second, third, fourth] => of_four(form, *first, *second, *third, *fourth),
        _ => None,
    }
}

/// What a directive with expressions between blanks means.
fn spaced<'a>(
    alloc: Global,
    form: Form,
    tokens: &[Token<'a>],
) -> Result<Option<Directive<'a>>, NoMemory>
    ensures { IfOk result (λ d. option_map directive_seen d ≡ option_then (expressions (map seen tokens.now)) (fixed_means form)) }
{
    let parts = arguments_of(alloc, tokens)?;
    match expressions_of(alloc, parts.as_slice())? {
        Some(arguments) => Ok(fixed(form, arguments.as_slice())),
        None => Ok(None),
    }
}

/// The number that is the one argument.
fn signed_alone(parts: &[&[Token<'_>]]) -> Option<i64>
    ensures { result ≡ signed_alone (map part_seen parts.now) }
{
    match parts {
        [part] => signed(part),
        _ => None,
    }
}

/// The number that is the one argument between blanks.
fn number_alone(alloc: Global, tokens: &[Token<'_>]) -> Result<Option<i64>, NoMemory>
    ensures { IfOk result (λ n. n ≡ signed_alone (spaced (map seen tokens.now))) }
{
    let parts = arguments_of(alloc, tokens)?;
    Ok(signed_alone(parts.as_slice()))
}

/// Numbers of so many bits, if there is one at least.
fn some_values(width: Width, values: List<Expression<'_>>) -> Option<Directive<'_>>
    ensures { option_map directive_seen result ≡ some_values (width_bits width) (map expression_seen values.entry) }
{
    if values.as_slice().is_empty() {
        None
    } else {
        Some(Directive::Values(width, values))
    }
}

/// Numbers of so many bits between commas, one at least.
fn values<'a>(
    alloc: Global,
    width: Width,
    tokens: &[Token<'a>],
) -> Result<Option<Directive<'a>>, NoMemory>
    ensures { IfOk result (λ d. option_map directive_seen d ≡ values (width_bits width) (map seen tokens.now)) }
{
    let solid = solid_of(alloc, tokens)?;
    let parts = listed_of(alloc, solid.as_slice())?;
    match expressions_of(alloc, parts.as_slice())? {
        Some(values) => Ok(some_values(width, values)),
        None => Ok(None),
    }
}

/// The word that is the one argument.
fn word_alone<'a>(parts: &[&[Token<'a>]]) -> Option<&'a [u8]>
    ensures { word_seen result ≡ word_alone (map part_seen parts.now) }
{
    match parts {
        [[Token::Word(word)]] => Some(word),
        _ => None,
    }
}

/// The bytes of the one argument's digits.
fn digits<'a>(alloc: Global, tokens: &[Token<'_>]) -> Result<Option<Directive<'a>>, NoMemory>
    ensures { IfOk result (λ d. option_map directive_seen d ≡ digits (map seen tokens.now)) }
{
    let parts = arguments_of(alloc, tokens)?;
    let Some(word) = word_alone(parts.as_slice()) else {
        return Ok(None);
    };
    match hex_bytes(alloc, word)? {
        Some(bytes) => Ok(Some(Directive::Bytes(bytes))),
        None => Ok(None),
    }
}

/// What a directive means with the tokens behind its word, blanks among them.
pub fn directive_of<'a>(
    alloc: Global,
    form: Form,
    tokens: &[Token<'a>],
) -> Result<Option<Directive<'a>>, NoMemory>
    ensures { IfOk result (λ d. option_map directive_seen d ≡ form_means form (map seen tokens.now)) }
{
    match form {
        Form::Org => match number_alone(alloc, tokens)? {
            Some(n) => Ok(Some(Directive::Begins(n))),
            None => Ok(None),
        },
        Form::Zero => match number_alone(alloc, tokens)? {
            Some(n) => Ok(Some(Directive::Zeros(n))),
            None => Ok(None),
        },
        Form::Byte => values(alloc, Width::W8, tokens),
        Form::Word => values(alloc, Width::W16, tokens),
        Form::Long => values(alloc, Width::W32, tokens),
        Form::Hex => digits(alloc, tokens),
        Form::Tss => task(alloc, tokens),
        _ => spaced(alloc, form, tokens),
    }
}
