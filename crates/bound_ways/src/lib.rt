//! Atoms at the places of a table, and the ways of its bounds as steps of a certificate.
#![tactic(auto)]

pub mod copy;
pub mod over;
mod place;
pub mod places;
pub mod push;
pub mod way;
