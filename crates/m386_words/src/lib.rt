//! The words of a source text's lines: what a line consists of, and what its numbers, registers, expressions and operands are.
#![tactic(auto)]

pub mod expression;
pub mod letters;
pub mod mnemonic;
pub mod name;
pub mod number;
pub mod operand;
pub mod part;
pub mod register;
pub mod text;
pub mod token;
