#![tactic(auto)]

// Scripts: how a line is read into a command or a fault, and how answers are printed.

mod answer;
mod args;
mod arguments;
mod bounds;
mod buffer;
mod command;
mod copyvec;
mod fault;
mod forms;
mod items;
mod judgement;
mod lines;
mod names;
mod shapes;
mod stretch;
mod tokens;

pub use answer::{Answer, print_answer};
pub use bounds::{BUFFER_LEAST, FILE_MOST, SHOW_MOST, check_buffer, check_file};
pub use buffer::put;
pub use command::Command;
pub use fault::{Fault, ScriptFault};
pub use items::{Item, Word, print};
pub use judgement::{first_column, judge};
pub use lines::{Line, line_at};
pub use names::Names;
pub use stretch::Stretch;
