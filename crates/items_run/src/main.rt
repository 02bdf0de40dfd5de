// Asks the readers of items questions, and writes a line for each answer: vectors/questions.py says how items and questions are read from standard
// input, and the scripts beside it what must be written.
#![tactic(auto)]

mod members;
mod notes;
mod numbers;
mod outputs;
mod questions;
mod values;

// Each question about each of the items. What they are read against stands in front of them, 16 bytes.
fn main() {
    asking::each(16, questions::answer);
}
