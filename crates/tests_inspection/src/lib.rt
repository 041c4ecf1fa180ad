//! Tests of the pairs of inspection plans.
#![tactic(auto)]

#[cfg(test)]
mod by_hand;
#[cfg(test)]
mod grids;
#[cfg(test)]
mod run;
