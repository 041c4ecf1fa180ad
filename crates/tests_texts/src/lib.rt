//! Tests of loop texts: their lines, what they are read as, and how nests are printed.
#![tactic(auto)]

#[cfg(test)]
mod lines;
#[cfg(test)]
mod printing;
#[cfg(test)]
mod reading;
#[cfg(test)]
mod reading_locals;
