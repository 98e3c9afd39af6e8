#![tactic(auto)]

// Sheets: the values of a summary rule, one for each slot of a book.

mod fault;
mod pieces;
mod roots;
mod sheet;
mod values;

pub use fault::SheetFault;
pub use sheet::Sheet;
