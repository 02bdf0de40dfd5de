// Asks the readers questions about files, and writes a line for each answer: vectors/questions.py says how a file and its questions are read from
// standard input, and the scripts beside it what must be written.
#![tactic(auto)]

mod classes;
mod code;
mod heads;
mod items;
mod notes;
mod outputs;
mod questions;
mod tables;
mod values;

// Each question about each file. A file with its questions is read at a time.
fn main() {
    asking::each(0, questions::answer);
}
