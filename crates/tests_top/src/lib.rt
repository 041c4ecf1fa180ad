//! Tests of the binding of arrays and of the program's own calls.
#![tactic(auto)]

#[cfg(test)]
mod answers;
#[cfg(test)]
mod binding;
#[cfg(test)]
mod calls;
#[cfg(test)]
mod plans;
#[cfg(test)]
mod replays;
#[cfg(test)]
mod streams;
