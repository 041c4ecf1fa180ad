//! Tests of closures: at once, grown, and against a flat listing.
#![tactic(auto)]

#[cfg(test)]
mod closure;
#[cfg(test)]
mod growth;
