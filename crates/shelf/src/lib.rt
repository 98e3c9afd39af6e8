#![tactic(auto)]

// Texts on a shelf, and the trace frames that texts are received in.

mod check;
mod facts;
mod frame;
mod held;
mod one;
mod pair;
mod ring;
mod rows;
mod texts;
mod trace;

pub use check::{Checked, Received};
pub use facts::{laid_out_frames_yield, rows_stand_in_order};
pub use frame::{FrameFault, Kind};
pub use held::Held;
pub use pair::Pair;
pub use ring::Ring;
pub use rows::{Layer, Row};
pub use texts::{CopyFault, LIMIT, MOST_TEXTS, Shelf};
pub use trace::Trace;
