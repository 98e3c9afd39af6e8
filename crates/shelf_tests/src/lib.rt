#![tactic(auto)]

// Frames, rings and pairs at their borders, with what the rules give for each.

#[cfg(test)]
mod frames;
#[cfg(test)]
mod reading;
#[cfg(test)]
mod shelves;
