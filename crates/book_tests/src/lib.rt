#![tactic(auto)]

// Books, questions and sheets at their borders, with what the rules give for each.
// Each test opens its own book: a helper that hands one to a closure would save a line, and indent the whole test.

#[cfg(test)]
mod bounds;
#[cfg(test)]
mod edits;
#[cfg(test)]
mod questions;
#[cfg(test)]
mod rooms;
#[cfg(test)]
mod rows;
#[cfg(test)]
mod sheets;
#[cfg(test)]
mod shelves;
#[cfg(test)]
mod splits;
#[cfg(test)]
mod steps;
#[cfg(test)]
mod trees;
