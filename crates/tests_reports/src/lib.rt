//! Tests of the printed texts of plans, summaries and replays.
#![tactic(auto)]

#[cfg(test)]
mod counts;
#[cfg(test)]
mod plans;
