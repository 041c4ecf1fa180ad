//! Tests of the inspection plans of worked relations.
#![tactic(auto)]

#[cfg(test)]
mod letters;
#[cfg(test)]
mod texts;
#[cfg(test)]
mod worked;
