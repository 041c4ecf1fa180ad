//! Tests of acceptance: worked loops, guards in one another, and a second body.
#![tactic(auto)]

#[cfg(test)]
mod guards;
#[cfg(test)]
mod loops;
#[cfg(test)]
mod second;
#[cfg(test)]
mod texts;
