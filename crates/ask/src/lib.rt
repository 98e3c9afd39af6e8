#![tactic(auto)]

// Questions over a book: read, find and shape.

mod fill;
mod questions;
mod stream;

pub use questions::{Dimensions, LONGEST_PATTERN, find, read, shape};
