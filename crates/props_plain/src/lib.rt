//! Plain second bodies over the properties of index arrays: their instances by searches, and the
//! decision of what each property says.
#![tactic(auto)]

pub mod listing;
pub mod meaning;
mod pairs;
mod places;
mod segment;
mod words;
