#![tactic(auto)]

// A list of calls on a real book and its sheets, with the law of kept versions on its contract.

mod call;
mod change;
mod inputs;
mod one_of;
mod performing;
mod question;
mod replaying;
mod sheets;

pub use call::{Answer, BookTold, Call, Change, Question, SheetCall, SheetTold, Which};
pub use inputs::Inputs;
pub use performing::perform;
pub use replaying::{replay, replay_on};
