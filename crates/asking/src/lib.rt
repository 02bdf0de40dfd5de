// What the programs that ask the readers share: questions are read from standard input, one after the other, and a line is written for each answer.
// vectors/questions.py says the form of both. What is read and written no contract can say.
#![tactic(auto)]

mod lines;
mod questions;
mod turns;

pub use lines::{write_bytes, write_units, write_words};
pub use questions::{question_of, rest_of};
pub use turns::{asked_of, bytes_of, each, first, next};

// A question: its reader, the words of the answer that are written, its five numbers, how many bytes it has up to their end, and how many come
// behind them.
#[derive(Clone, Copy)]
pub struct Question {
    pub reader: u8,
    pub mask: u32,
    pub a: u32,
    pub b: u32,
    pub c: u32,
    pub d: u32,
    pub e: u32,
    pub size: u16,
    pub more: u8,
}

// Whose turn it is: how many cases are still to be read; of this one, where the bytes begin that are asked about and how many they are, where the
// question begins, and where the last one ends.
#[derive(Clone, Copy)]
pub struct Turn {
    pub left: u32,
    pub start: u32,
    pub length: u32,
    pub at: u32,
    pub end: u32,
}
