// The node list: trees held as records in slots.
// A record is written only at the next free slot, and never again while that slot is in use.
// The lent list is a parameter of plain functions beside the places in use, because the guard of a change holds only the places.

mod any;
mod changes;
mod guard;
mod joins;
mod splits;
mod writes;

pub(crate) use guard::change;
