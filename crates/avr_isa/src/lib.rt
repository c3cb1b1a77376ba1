//! The instruction set of the ATmega328P (AVR Instruction Set Manual): words to instructions.
//! `decode` gives the instruction of the encoding's table, `words` its length.
//! No call takes memory, and none fails: a word that is no instruction is `Instr::Halt`.
#![tactic(auto)]

mod decoding;
mod instr;

pub use decoding::{decode, words};
pub use instr::Instr;
