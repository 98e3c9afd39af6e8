#![tactic(auto)]

// The book of kept versions: its node records, its drafts and the edits of a draft.

mod book;
mod contents;
mod draft;
mod edit;
mod fault;
mod node;
mod nodes;
mod reader;
mod size;

pub use book::Book;
pub use book::drafts::Kept;
pub use book::opening::open_book;
pub use contents::MOST_VERSIONS;
pub use draft::Draft;
pub use fault::BookFault;
pub use node::{MOST_SLOTS, Node, Shape};
pub use reader::Reader;
