//! The first letters of the operations' words, by which most rows of the opcode table are passed over.
ghost use Rattle.std.specs.Prelude.{◌≡◌, true};
ghost use Rattle.m386_opmap.specs.Opcodes.{opcode_rows};
ghost use Rattle.m386_words.specs.Mnemonics.{are_letters_of};

/// The first letter of the word of each row of the opcode table, and `-` where a row has none.
pub const FIRST_LETTERS: &[u8] = b"\
    aaaaaappoooooopaaaaaappssssssppaaaaaassssssxxxxxxccccccidppppbapipijjjjjjjjjjjjjjjjaoasasxcaoasa\
    sxcaoasasxcttxxmmmmmlmmpnxcccwppslmmmmmmccttssllssmmrrrrsssrrrrsssrrllmmlrriiiirrrrsssrrrrsssrrr\
    rsssrrrrsssx-llljiioocjjjiioohctnnmiditnnmidicscscsididccjjpssllvvssllslllcmmjjjjjjjjjjjjjjjjsss\
    sssssssssssssppbssppbssilbllmmbbbbbbbmm";

/// Each letter is that of its row.
#[tactic(auto, unfolding(crate::specs::Mnemonics::are_letters_of))]
pub fn letters_are_of_the_rows()
    ensures { are_letters_of opcode_rows FIRST_LETTERS.now ≡ true }
{}
