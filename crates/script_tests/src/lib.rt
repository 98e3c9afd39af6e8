#![tactic(auto)]

// Worked lines of scripts. The expected rows, columns and bytes were worked out by hand from the rules of the language.

#[cfg(test)]
mod judging;
#[cfg(test)]
mod lines;
#[cfg(test)]
mod printing;
