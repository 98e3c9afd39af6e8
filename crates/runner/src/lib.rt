#![tactic(auto)]

// Scripts run over a book: its lines are made as calls on a book and its two sheets, and what they answer is printed.

mod keeping;
mod output;
mod printed;
mod requests;
mod runner;

pub use runner::Runner;
