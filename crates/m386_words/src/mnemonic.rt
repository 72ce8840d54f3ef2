//! The words of operations.
ghost use Rattle.std.specs.Prelude.{◌≡◌, Some, true};
ghost use Rattle.std.specs.List.{list_any};
ghost use Rattle.m386_opmap.specs.Operands.{width_of};
ghost use Rattle.m386_words.specs.Mnemonics.{by_width, computing_word, moving_word, transfer_word, condition_word, processor_word, string_word, word_of, are_letters_of, is_word, has_word, is_mnemonic};
ghost use Rattle.m386_words.specs.Seen.{word_seen};

use crate::letters::{FIRST_LETTERS, letters_are_of_the_rows};
use m386_base::number::Width;
use m386_opmap::name::Name;
use m386_opmap::row::{Row, Size};
use m386_opmap::rows::OPCODE_ROWS;

/// The one of three words that is of a width.
fn by_width(
    width: Width,
    byte: &'static [u8],
    word: &'static [u8],
    double: &'static [u8],
) -> Option<&'static [u8]>
    ensures { word_seen result ≡ Some (by_width width byte.now word.now double.now) }
{
    match width {
        Width::W8 => Some(byte),
        Width::W16 => Some(word),
        Width::W32 => Some(double),
    }
}

/// Arithmetic, logic, shifts and bits.
fn computing_word(name: Name) -> Option<&'static [u8]>
    ensures { word_seen result ≡ computing_word name }
{
    match name {
        Name::Add => Some(b"add"),
        Name::Or => Some(b"or"),
        Name::Adc => Some(b"adc"),
        Name::Sbb => Some(b"sbb"),
        Name::And => Some(b"and"),
        Name::Sub => Some(b"sub"),
        Name::Xor => Some(b"xor"),
        Name::Cmp => Some(b"cmp"),
        Name::Test => Some(b"test"),
        Name::Inc => Some(b"inc"),
        Name::Dec => Some(b"dec"),
        Name::Not => Some(b"not"),
        Name::Neg => Some(b"neg"),
        Name::Mul => Some(b"mul"),
        Name::Imul => Some(b"imul"),
        Name::Div => Some(b"div"),
        Name::Idiv => Some(b"idiv"),
        Name::Rol => Some(b"rol"),
        Name::Ror => Some(b"ror"),
        Name::Rcl => Some(b"rcl"),
        Name::Rcr => Some(b"rcr"),
        Name::Shl => Some(b"shl"),
        Name::Shr => Some(b"shr"),
        Name::Sar => Some(b"sar"),
        Name::Shld => Some(b"shld"),
        Name::Shrd => Some(b"shrd"),
        Name::Bt => Some(b"bt"),
        Name::Bts => Some(b"bts"),
        Name::Btr => Some(b"btr"),
        Name::Btc => Some(b"btc"),
        Name::Bsf => Some(b"bsf"),
        Name::Bsr => Some(b"bsr"),
        _ => None,
    }
}

/// Moves, stacks and ports.
fn moving_word(name: Name) -> Option<&'static [u8]>
    ensures { word_seen result ≡ moving_word name }
{
    match name {
        Name::Mov => Some(b"mov"),
        Name::Movzx8 => Some(b"movzx"),
        Name::Movzx16 => Some(b"movzx"),
        Name::Movsx8 => Some(b"movsx"),
        Name::Movsx16 => Some(b"movsx"),
        Name::Xchg => Some(b"xchg"),
        Name::Lea => Some(b"lea"),
        Name::Cwde => Some(b"cwde"),
        Name::Cdq => Some(b"cdq"),
        Name::Xlat => Some(b"xlat"),
        Name::Les => Some(b"les"),
        Name::Lds => Some(b"lds"),
        Name::Lss => Some(b"lss"),
        Name::Lfs => Some(b"lfs"),
        Name::Lgs => Some(b"lgs"),
        Name::Push => Some(b"push"),
        Name::Pop => Some(b"pop"),
        Name::Pusha => Some(b"pusha"),
        Name::Popa => Some(b"popa"),
        Name::Pushf => Some(b"pushf"),
        Name::Popf => Some(b"popf"),
        Name::Leave => Some(b"leave"),
        Name::In => Some(b"in"),
        Name::Out => Some(b"out"),
        _ => None,
    }
}

/// Jumps, calls, returns, interrupts and loops.
fn transfer_word(name: Name) -> Option<&'static [u8]>
    ensures { word_seen result ≡ transfer_word name }
{
    match name {
        Name::Jmp => Some(b"jmp"),
        Name::Jmpf => Some(b"jmp"),
        Name::Call => Some(b"call"),
        Name::Callf => Some(b"call"),
        Name::Ret => Some(b"ret"),
        Name::Retf => Some(b"retf"),
        Name::Iret => Some(b"iret"),
        Name::Int => Some(b"int"),
        Name::Int3 => Some(b"int3"),
        Name::Into => Some(b"into"),
        Name::Loopnz => Some(b"loopnz"),
        Name::Loopz => Some(b"loopz"),
        Name::Loop => Some(b"loop"),
        Name::Jecxz => Some(b"jecxz"),
        _ => None,
    }
}

/// Jumps and bytes by a condition.
fn condition_word(name: Name) -> Option<&'static [u8]>
    ensures { word_seen result ≡ condition_word name }
{
    match name {
        Name::Jo => Some(b"jo"),
        Name::Jno => Some(b"jno"),
        Name::Jb => Some(b"jb"),
        Name::Jae => Some(b"jae"),
        Name::Je => Some(b"je"),
        Name::Jne => Some(b"jne"),
        Name::Jbe => Some(b"jbe"),
        Name::Ja => Some(b"ja"),
        Name::Js => Some(b"js"),
        Name::Jns => Some(b"jns"),
        Name::Jp => Some(b"jp"),
        Name::Jnp => Some(b"jnp"),
        Name::Jl => Some(b"jl"),
        Name::Jge => Some(b"jge"),
        Name::Jle => Some(b"jle"),
        Name::Jg => Some(b"jg"),
        Name::Seto => Some(b"seto"),
        Name::Setno => Some(b"setno"),
        Name::Setb => Some(b"setb"),
        Name::Setae => Some(b"setae"),
        Name::Sete => Some(b"sete"),
        Name::Setne => Some(b"setne"),
        Name::Setbe => Some(b"setbe"),
        Name::Seta => Some(b"seta"),
        Name::Sets => Some(b"sets"),
        Name::Setns => Some(b"setns"),
        Name::Setp => Some(b"setp"),
        Name::Setnp => Some(b"setnp"),
        Name::Setl => Some(b"setl"),
        Name::Setge => Some(b"setge"),
        Name::Setle => Some(b"setle"),
        Name::Setg => Some(b"setg"),
        _ => None,
    }
}

/// Flags, segments and the state of the processor.
fn processor_word(name: Name) -> Option<&'static [u8]>
    ensures { word_seen result ≡ processor_word name }
{
    match name {
        Name::Clc => Some(b"clc"),
        Name::Stc => Some(b"stc"),
        Name::Cmc => Some(b"cmc"),
        Name::Cld => Some(b"cld"),
        Name::Std => Some(b"std"),
        Name::Cli => Some(b"cli"),
        Name::Sti => Some(b"sti"),
        Name::Sahf => Some(b"sahf"),
        Name::Lahf => Some(b"lahf"),
        Name::Arpl => Some(b"arpl"),
        Name::Bound => Some(b"bound"),
        Name::Lar => Some(b"lar"),
        Name::Lsl => Some(b"lsl"),
        Name::Verr => Some(b"verr"),
        Name::Verw => Some(b"verw"),
        Name::Sldt => Some(b"sldt"),
        Name::Lldt => Some(b"lldt"),
        Name::Str => Some(b"str"),
        Name::Ltr => Some(b"ltr"),
        Name::Sgdt => Some(b"sgdt"),
        Name::Lgdt => Some(b"lgdt"),
        Name::Sidt => Some(b"sidt"),
        Name::Lidt => Some(b"lidt"),
        Name::Smsw => Some(b"smsw"),
        Name::Lmsw => Some(b"lmsw"),
        Name::Clts => Some(b"clts"),
        Name::Hlt => Some(b"hlt"),
        Name::Nop => Some(b"nop"),
        Name::Wait => Some(b"wait"),
        _ => None,
    }
}

/// The operations on strings, with a last letter for their width.
fn string_word(name: Name, width: Width) -> Option<&'static [u8]>
    ensures { word_seen result ≡ string_word name width }
{
    match name {
        Name::Movs => by_width(width, b"movsb", b"movsw", b"movsd"),
        Name::Cmps => by_width(width, b"cmpsb", b"cmpsw", b"cmpsd"),
        Name::Stos => by_width(width, b"stosb", b"stosw", b"stosd"),
        Name::Lods => by_width(width, b"lodsb", b"lodsw", b"lodsd"),
        Name::Scas => by_width(width, b"scasb", b"scasw", b"scasd"),
        _ => None,
    }
}

/// The word of an operation of a width (PRM 17.2.2). Far jumps and calls have the words of near ones, and what begins a
/// coprocessor's has none.
pub fn word_of(name: Name, width: Width) -> Option<&'static [u8]>
    ensures { word_seen result ≡ word_of name width }
{
    if let Some(word) = computing_word(name) {
        return Some(word);
    }
    if let Some(word) = moving_word(name) {
        return Some(word);
    }
    if let Some(word) = transfer_word(name) {
        return Some(word);
    }
    if let Some(word) = condition_word(name) {
        return Some(word);
    }
    if let Some(word) = processor_word(name) {
        return Some(word);
    }
    string_word(name, width)
}

/// How wide the operands of a row are, with 66h and without it.
pub fn width_of(size: Size, narrow: bool) -> Width
    ensures { result ≡ width_of size narrow }
{
    match size {
        Size::Byte => Width::W8,
        Size::Word => Width::W16,
        Size::Double => Width::W32,
        Size::Either if narrow => Width::W16,
        Size::Either => Width::W32,
    }
}

/// Whether a word is the one of an operation of a width.
pub fn is_word(name: Name, width: Width, word: &[u8]) -> bool
    ensures { result ≡ is_word (word_of name width) word.now }
{
    match word_of(name, width) {
        Some(own) => own == word,
        None => false,
    }
}

/// Whether a word is the one of a row, with 66h or without.
pub fn has_word(word: &[u8], row: &Row) -> bool
    ensures { result ≡ has_word word.now row.now }
{
    is_word(row.name, width_of(row.size, false), word)
        || is_word(row.name, width_of(row.size, true), word)
}

/// Whether a word is the one of some row among these, whose words begin with these letters.
#[tactic(auto, using(crate::proofs::Begun::among))]
fn is_among(word: &[u8], rows: &[Row], letters: &[u8]) -> bool
    requires { are_letters_of rows.now letters.now ≡ true }
    ensures { result ≡ list_any (has_word word.now) rows.now }
{
    let [first, ..] = word else {
        return false;
    };
    for (index, letter) in letters.iter().enumerate() {
        if letter == first && has_word(word, &rows[index]) {
            return true;
        }
    }
    false
}

/// Whether a word is a mnemonic: the word of a row of the opcode table.
#[tactic(auto, unfolding(crate::specs::Mnemonics::is_mnemonic))]
pub fn is_mnemonic(word: &[u8]) -> bool
    ensures { result ≡ is_mnemonic word.now }
{
    letters_are_of_the_rows();
    is_among(word, &OPCODE_ROWS, FIRST_LETTERS)
}
