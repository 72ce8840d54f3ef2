//! Which row of the opcode table takes a mnemonic with its operands.
ghost use Rattle.std.specs.Prelude.{◌≡◌, ◌&&◌, ◌||◌, not, ◌+◌, ◌*◌, ◌/◌, ◌≤◌, Option, None, Some, true, if◌then◌else◌, length, map};
ghost use Rattle.std.specs.List.{list_any};
ghost use Rattle.std.specs.Option.{option_map};
ghost use Rattle.arrayvec.specs.ArrayVec.{array_vec_len};
ghost use Rattle.m386_base.specs.declared.number.Width.{Width};
ghost use Rattle.m386_opmap.specs.Operands.{is_memory_alone, is_register_alone, is_string, plain_memory, wants_memory, wants_register, width_of};
ghost use Rattle.m386_opmap.specs.Rows.{covers_key};
ghost use Rattle.m386_encode.specs.Wide.{is_always_near, is_brief, is_full};
ghost use Rattle.m386_words.specs.declared.name.SizeWord.{SizeWord};
ghost use Rattle.m386_opmap.specs.declared.row.Row.{Row};
ghost use Rattle.m386_words.specs.Mnemonics.{are_letters_of, is_word, word_of};
ghost use Rattle.m386_words.specs.Operands.{Control, General, Memory, Number, Pointer, Segment};
ghost use Rattle.m386_words.specs.Seen.{expression_seen, place_seen, written_seen};
ghost use Rattle.m386_lines.specs.Instructions.{At, Fixed, argument, by_choice, by_row, far_word, first_choice, in_either_width, instruction_of, is_at, is_beside, is_once, is_prefixed, is_register_of, matched, may_be_narrow, operands_of, register_if, same_size, same_width, segment_if, size_wanted, slot_of, tells, width_of_e, word_of_width};
ghost use Rattle.m386_lines.specs.Seen.{args_seen, argument_seen, behind, instruction_seen};

use crate::instruction::{Argument, Arguments, Instruction, Prefixing};
use arrayvec::ArrayVec;
use m386_base::number::Width;
use m386_opmap::name::Name;
use m386_opmap::op::{Addr, Arg, Rep};
use m386_opmap::row::{Operand, Row};
use m386_opmap::rows::OPCODE_ROWS;
use m386_words::expression::Expression;
use m386_words::letters::{FIRST_LETTERS, letters_are_of_the_rows};
use m386_words::mnemonic::{is_word, width_of};
use m386_words::name::SizeWord;
use m386_words::operand::{Place, Written};

/// How wide the register or memory of the ModRM byte is.
fn width_of_place(name: Name, width: Width) -> Width
    ensures { result ≡ width_of_e name width }
{
    match name {
        Name::Movzx8 | Name::Movsx8 => Width::W8,
        Name::Movzx16 | Name::Movsx16 | Name::Lar | Name::Lsl => Width::W16,
        _ => width,
    }
}

/// Whether two widths are the same.
fn same_width(width: Width, other: Width) -> bool
    ensures { result ≡ same_width width other }
{
    matches!(
        (width, other),
        (Width::W8, Width::W8) | (Width::W16, Width::W16) | (Width::W32, Width::W32)
    )
}

/// Whether the word before memory is the one that has to stand there.
fn same_size(word: Option<SizeWord>, wanted: Option<SizeWord>) -> bool
    ensures { result ≡ same_size word wanted }
{
    match (word, wanted) {
        (None, None) => true,
        (Some(SizeWord::Byte), Some(SizeWord::Byte)) => true,
        (Some(SizeWord::Word), Some(SizeWord::Word)) => true,
        (Some(SizeWord::Double), Some(SizeWord::Double)) => true,
        (Some(SizeWord::Far), Some(SizeWord::Far)) => true,
        _ => false,
    }
}

/// Whether a written operand is a register of this width.
fn is_register_of(width: Width, written: &Written<'_>) -> bool
    ensures { result ≡ is_register_of width (written_seen written.now) }
{
    match written {
        Written::General(own, _) => same_width(*own, width),
        Written::Segment(_) => same_width(Width::W16, width),
        _ => false,
    }
}

/// Whether a register operand has this width, but for CL as a count.
#[tactic(auto, unfolding(crate::specs::Instructions::is_beside))]
fn is_beside(width: Width, operands: &[Operand], written: &[Written<'_>]) -> bool
    ensures { result ≡ is_beside width operands.now (map written_seen written.now) }
{
    let [operand, operands @ ..] = operands else {
        return false;
    };
    let [first, written @ ..] = written else {
        return false;
    };
    !matches!(operand, Operand::Cl) && is_register_of(width, first)
        || is_beside(width, operands, written)
}

/// The word of a width.
fn word_of_width(width: Width) -> SizeWord
    ensures { result ≡ word_of_width width }
{
    match width {
        Width::W8 => SizeWord::Byte,
        Width::W16 => SizeWord::Word,
        Width::W32 => SizeWord::Double,
    }
}

/// The word before memory that a row's operand has by itself: only what holds a far pointer has one.
fn far_word(name: Name) -> Option<SizeWord>
    ensures { result ≡ far_word name }
{
    match name {
        Name::Callf | Name::Jmpf => Some(SizeWord::Far),
        _ => None,
    }
}

/// The word that stands before memory: where no register has its width, or before a far pointer.
#[tactic(auto, unfolding(crate::specs::Instructions::size_wanted))]
fn size_wanted(
    name: Name,
    width: Width,
    written: &[Written<'_>],
    operands: &[Operand],
    operand: Operand,
) -> Option<SizeWord>
    ensures { result ≡ size_wanted name width (map written_seen written.now) operands.now operand }
{
    let place = width_of_place(name, width);
    match operand {
        Operand::M => far_word(name),
        _ if is_beside(place, operands, written) => None,
        _ => Some(word_of_width(place)),
    }
}

/// A register, where a test holds.
fn register_if(holds: bool, register: u8) -> Option<Argument<'static>>
    ensures { option_map argument_seen result ≡ register_if holds register }
{
    if holds {
        Some(Argument::Fixed(Arg::Reg(register)))
    } else {
        None
    }
}

/// A segment register, where a test holds.
fn segment_if(holds: bool, segment: u8) -> Option<Argument<'static>>
    ensures { option_map argument_seen result ≡ segment_if holds segment }
{
    if holds {
        Some(Argument::Fixed(Arg::Seg(segment)))
    } else {
        None
    }
}

/// Whether a row takes a segment register in the middle bits of its ModRM byte.
fn takes_segment(row: &Row, segment: u8) -> bool
    ensures { result ≡ covers_key (row.now.low / 8 * 8 + segment) row.now }
{
    let key = u32::from(row.low) / 8 * 8 + u32::from(segment);
    u32::from(row.low) <= key && key <= u32::from(row.high)
}

/// What a general register is at an operand of a row.
#[tactic(auto, unfolding(crate::specs::Instructions::argument))]
fn general_argument(
    row: &Row,
    width: Width,
    operand: Operand,
    own: Width,
    number: u8,
) -> Option<Argument<'static>>
    ensures { (size : Option SizeWord) → option_map argument_seen result ≡ argument row.now width size operand (General own number) }
{
    match operand {
        Operand::E => register_if(same_width(own, width_of_place(row.name, width)), number),
        Operand::R | Operand::G | Operand::Low => register_if(same_width(own, width), number),
        Operand::Eax => register_if(same_width(own, width) && number == 0, number),
        Operand::Cl => register_if(same_width(own, Width::W8) && number == 1, number),
        Operand::Dx => register_if(same_width(own, Width::W16) && number == 2, number),
        _ => None,
    }
}

/// What a segment register is at an operand of a row.
#[tactic(auto, unfolding(crate::specs::Instructions::argument))]
fn segment_argument(row: &Row, operand: Operand, segment: u8) -> Option<Argument<'static>>
    ensures { (width : Width) (size : Option SizeWord) → option_map argument_seen result ≡ argument row.now width size operand (Segment segment) }
{
    match operand {
        Operand::S => segment_if(takes_segment(row, segment), segment),
        Operand::Es => segment_if(segment == 0, segment),
        Operand::Cs => segment_if(segment == 1, segment),
        Operand::Ss => segment_if(segment == 2, segment),
        Operand::Ds => segment_if(segment == 3, segment),
        Operand::Fs => segment_if(segment == 4, segment),
        Operand::Gs => segment_if(segment == 5, segment),
        _ => None,
    }
}

/// What an expression is at an operand of a row.
#[tactic(auto, unfolding(crate::specs::Instructions::argument))]
fn number_argument<'a>(
    width: Width,
    operand: Operand,
    number: Expression<'a>,
) -> Option<Argument<'a>>
    ensures { (row : Row) (size : Option SizeWord) → option_map argument_seen result ≡ argument row width size operand (Number (expression_seen number.entry)) }
{
    match operand {
        Operand::I => Some(Argument::Immediate(width, number)),
        Operand::Ib => Some(Argument::Immediate(Width::W8, number)),
        Operand::Iw => Some(Argument::Immediate(Width::W16, number)),
        Operand::Jb | Operand::J => Some(Argument::Target(number)),
        _ => None,
    }
}

/// What CR0 is at an operand of a row.
#[tactic(auto, unfolding(crate::specs::Instructions::argument))]
fn control_argument(operand: Operand) -> Option<Argument<'static>>
    ensures { (row : Row) (width : Width) (size : Option SizeWord) → option_map argument_seen result ≡ argument row width size operand Control }
{
    match operand {
        Operand::Cr0 => Some(Argument::Fixed(Arg::Cr0)),
        _ => None,
    }
}

/// What a far pointer is at an operand of a row.
#[tactic(auto, unfolding(crate::specs::Instructions::argument))]
fn pointer_argument<'a>(
    operand: Operand,
    selector: Expression<'a>,
    offset: Expression<'a>,
) -> Option<Argument<'a>>
    ensures { (row : Row) (width : Width) (size : Option SizeWord) → option_map argument_seen result ≡ argument row width size operand (Pointer (expression_seen selector.entry) (expression_seen offset.entry)) }
{
    match operand {
        Operand::A => Some(Argument::Far(selector, offset)),
        _ => None,
    }
}

/// Memory, where a test holds.
fn memory_if(holds: bool, place: Place<'_>) -> Option<Argument<'_>>
    ensures { option_map argument_seen result ≡ (if holds then Some (At (place_seen place.entry)) else None) }
{
    if holds {
        Some(Argument::At(place))
    } else {
        None
    }
}

/// What memory is at an operand of a row.
#[tactic(auto, unfolding(crate::specs::Instructions::argument))]
fn memory_argument<'a>(
    size: Option<SizeWord>,
    operand: Operand,
    word: Option<SizeWord>,
    place: Place<'a>,
) -> Option<Argument<'a>>
    ensures { (row : Row) (width : Width) → option_map argument_seen result ≡ argument row width size operand (Memory word (place_seen place.entry)) }
{
    match operand {
        Operand::E | Operand::M => memory_if(same_size(word, size), place),
        _ => None,
    }
}

/// What a written operand is at an operand of a row.
fn argument<'a>(
    row: &Row,
    width: Width,
    size: Option<SizeWord>,
    operand: Operand,
    written: Written<'a>,
) -> Option<Argument<'a>>
    ensures { option_map argument_seen result ≡ argument row.now width size operand (written_seen written.entry) }
{
    match written {
        Written::General(own, number) => general_argument(row, width, operand, own, number),
        Written::Segment(segment) => segment_argument(row, operand, segment),
        Written::Control => control_argument(operand),
        Written::Number(number) => number_argument(width, operand, number),
        Written::Pointer(selector, offset) => pointer_argument(operand, selector, offset),
        Written::Memory(word, place) => memory_argument(size, operand, word, place),
    }
}

/// What a written operand is at an operand of a row, beside all that are written.
fn taken<'a>(
    row: &Row,
    width: Width,
    written: &[Written<'a>],
    operand: Operand,
    first: &Written<'a>,
) -> Option<Argument<'a>>
    ensures { option_map argument_seen result ≡ argument row.now width (size_wanted row.now.name width (map written_seen written.now) (operands_of row.now) operand) operand (written_seen first.now) }
{
    let operands = [row.first, row.second, row.third];
    let size = size_wanted(row.name, width, written, &operands, operand);
    argument(row, width, size, operand, *first)
}

/// Memory at DS:ESI or DS:EBX, which isn't written.
fn read_by(base: u8) -> Argument<'static>
    ensures { argument_seen result ≡ Fixed (plain_memory None (Some base) 0) }
{
    Argument::Fixed(Arg::Mem(Addr {
        seg: None,
        base: Some(base),
        index: None,
        scale: 1,
        disp: 0,
    }))
}

/// What stands in a line at an operand of a row.
#[derive(Clone, Copy, Debug, PartialEq, Eq)]
pub enum Slot {
    /// Nothing, since there is no operand.
    Left,
    /// Nothing, since memory is read by this base register.
    Read(u8),
    /// An operand.
    Taken,
}

/// What stands in a line at an operand of a row.
fn slot_of(operand: Operand) -> Slot
    ensures { result ≡ slot_of operand }
{
    match operand {
        Operand::Absent => Slot::Left,
        Operand::X => Slot::Read(6),
        Operand::Table => Slot::Read(3),
        _ => Slot::Taken,
    }
}

/// The written operands at those of a row, behind the operands so far.
#[tactic(auto, using(crate::proofs::Matched::matched_rules), unfolding(crate::specs::Instructions::matched))]
fn matched<'a>(
    row: &Row,
    width: Width,
    written: &[Written<'a>],
    operands: &[Operand],
    rest: &[Written<'a>],
    args: Arguments<'a>,
) -> Option<Arguments<'a>>
    requires { array_vec_len args + length operands.now ≤ 3 }
    ensures { args_seen result ≡ behind args.entry.items (matched row.now width (size_wanted row.now.name width (map written_seen written.now) (operands_of row.now)) operands.now (map written_seen rest.now)) }
{
    let [operand, behind @ ..] = operands else {
        return match rest {
            [] => Some(args),
            _ => None,
        };
    };
    let mut args = args;
    match slot_of(*operand) {
        Slot::Left => matched(row, width, written, behind, rest, args),
        Slot::Read(base) => {
            args.push(read_by(base));
            matched(row, width, written, behind, rest, args)
        }
        Slot::Taken => {
            let [first, left @ ..] = rest else {
                return None;
            };
            args.push(taken(row, width, written, *operand, first)?);
            matched(row, width, written, behind, left, args)
        }
    }
}

/// Whether an operand is memory that is written.
fn is_at(argument: &Argument<'_>) -> bool
    ensures { result ≡ is_at (argument_seen argument.now) }
{
    matches!(argument, Argument::At(_))
}

/// Whether an operand is memory alone.
fn is_memory(operand: Operand) -> bool
    ensures { result ≡ is_memory_alone operand }
{
    matches!(operand, Operand::M)
}

/// Whether an operand is a register alone.
fn is_register(operand: Operand) -> bool
    ensures { result ≡ is_register_alone operand }
{
    matches!(operand, Operand::R)
}

/// Whether an operand of the row is memory alone.
fn wants_memory(row: &Row) -> bool
    ensures { result ≡ wants_memory row.now }
{
    is_memory(row.first) || is_memory(row.second) || is_memory(row.third)
}

/// Whether an operand of the row is a register alone.
fn wants_register(row: &Row) -> bool
    ensures { result ≡ wants_register row.now }
{
    is_register(row.first) || is_register(row.second) || is_register(row.third)
}

/// Whether the operation is one on strings.
fn is_string(name: Name) -> bool
    ensures { result ≡ is_string name }
{
    matches!(
        name,
        Name::Movs | Name::Cmps | Name::Stos | Name::Lods | Name::Scas
    )
}

/// Whether one of the operands is memory that is written.
fn has_memory(args: &[Argument<'_>]) -> bool
    ensures { result ≡ list_any is_at (map argument_seen args.now) }
{
    match args {
        [] => false,
        [first, rest @ ..] => is_at(first) || has_memory(rest),
    }
}

/// Whether an operation isn't repeated.
fn is_once(rep: Rep) -> bool
    ensures { result ≡ is_once rep }
{
    matches!(rep, Rep::Once)
}

/// Whether a row may stand behind these words, with these operands.
fn is_prefixed(prefixing: Prefixing, row: &Row, args: &[Argument<'_>]) -> bool
    ensures { result ≡ is_prefixed prefixing row.now (map argument_seen args.now) }
{
    let memory = has_memory(args);
    (!prefixing.lock || row.lock && memory)
        && (!wants_memory(row) || memory)
        && (!wants_register(row) || !memory)
        && (is_once(prefixing.rep) || is_string(row.name))
}

/// Whether a written operand can say how wide an operand of a row is.
fn tells(operand: Operand) -> bool
    ensures { result ≡ tells operand }
{
    matches!(
        operand,
        Operand::E | Operand::R | Operand::G | Operand::Low | Operand::Eax
    )
}

/// Whether a line can say that the operation has 16 bits.
fn may_be_narrow(row: &Row) -> bool
    ensures { result ≡ may_be_narrow row.now }
{
    is_string(row.name) || tells(row.first) || tells(row.second) || tells(row.third)
}

/// A row as an instruction with these operands.
#[tactic(auto, using(crate::proofs::Matched::none_before), unfolding(crate::specs::Instructions::by_row))]
fn by_row<'a>(
    prefixing: Prefixing,
    written: &[Written<'a>],
    row: &Row,
    width: Width,
) -> Option<Instruction<'a>>
    ensures { option_map instruction_seen result ≡ by_row prefixing (map written_seen written.now) row.now width }
{
    let operands = [row.first, row.second, row.third];
    let args = matched(row, width, written, &operands, written, ArrayVec::new())?;
    if !is_prefixed(prefixing, row, args.as_slice()) {
        return None;
    }
    Some(Instruction {
        name: row.name,
        width,
        args,
        lock: prefixing.lock,
        rep: prefixing.rep,
    })
}

/// Whether a jump's distance has one byte in each of its opcodes.
fn stays_near(name: Name) -> bool
    ensures { result ≡ is_always_near name }
{
    matches!(name, Name::Loopnz | Name::Loopz | Name::Loop | Name::Jecxz)
}

/// Whether an operand has fewer bytes than in another opcode of the same name.
fn is_brief(name: Name, operand: Operand) -> bool
    ensures { result ≡ is_brief name operand }
{
    match operand {
        Operand::SignedByte | Operand::One => true,
        Operand::Jb => !stays_near(name),
        _ => false,
    }
}

/// Whether each operand of a row has its full size.
fn is_full(row: &Row) -> bool
    ensures { result ≡ is_full row.now }
{
    !is_brief(row.name, row.first)
        && !is_brief(row.name, row.second)
        && !is_brief(row.name, row.third)
}

/// Whether a row has the word, and operands of their full size, and has them in 16 bits where it is to.
fn is_offered(word: &[u8], row: &Row, narrow: bool) -> bool
    ensures { result ≡ is_full row.now && (not narrow || may_be_narrow row.now) && is_word (word_of row.now.name (width_of row.now.size narrow)) word.now }
{
    is_full(row)
        && (!narrow || may_be_narrow(row))
        && is_word(row.name, width_of(row.size, narrow), word)
}

/// The same, of a row that has the word, and whose operands have their full size: the others are the same operations.
fn by_choice<'a>(
    prefixing: Prefixing,
    word: &[u8],
    written: &[Written<'a>],
    row: &Row,
    narrow: bool,
) -> Option<Instruction<'a>>
    ensures { option_map instruction_seen result ≡ by_choice prefixing word.now (map written_seen written.now) row.now narrow }
{
    if !is_offered(word, row, narrow) {
        return None;
    }
    by_row(prefixing, written, row, width_of(row.size, narrow))
}

/// A row as an instruction of its full width, or else of 16 bits.
fn in_either_width<'a>(
    prefixing: Prefixing,
    word: &[u8],
    written: &[Written<'a>],
    row: &Row,
) -> Option<Instruction<'a>>
    ensures { option_map instruction_seen result ≡ in_either_width prefixing word.now (map written_seen written.now) row.now }
{
    if let Some(found) = by_choice(prefixing, word, written, row, false) {
        return Some(found);
    }
    by_choice(prefixing, word, written, row, true)
}

/// The instruction of the first of some rows, whose words begin with these letters, that takes a mnemonic with these operands
/// and these words before it.
#[tactic(auto, using(crate::proofs::Chosen::choices))]
fn first_choice<'a>(
    prefixing: Prefixing,
    word: &[u8],
    written: &[Written<'a>],
    rows: &[Row],
    letters: &[u8],
) -> Option<Instruction<'a>>
    requires { are_letters_of rows.now letters.now ≡ true }
    ensures { option_map instruction_seen result ≡ first_choice prefixing word.now (map written_seen written.now) rows.now }
{
    let [first, ..] = word else {
        return None;
    };
    for (index, letter) in letters.iter().enumerate() {
        if letter != first {
            continue;
        }
        if let Some(found) = in_either_width(prefixing, word, written, &rows[index]) {
            return Some(found);
        }
    }
    None
}

/// The instruction of a mnemonic with its operands, where a row of the opcode table has the word, operands of these kinds and
/// width, and takes the words before it.
#[tactic(auto, unfolding(crate::specs::Instructions::instruction_of))]
pub fn instruction_of<'a>(
    prefixing: Prefixing,
    word: &[u8],
    written: &[Written<'a>],
) -> Option<Instruction<'a>>
    ensures { option_map instruction_seen result ≡ instruction_of prefixing word.now (map written_seen written.now) }
{
    letters_are_of_the_rows();
    first_choice(prefixing, word, written, &OPCODE_ROWS, FIRST_LETTERS)
}
