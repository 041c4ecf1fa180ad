//! Tests of constraints, rules and certificates.
#![tactic(auto)]

#[cfg(test)]
mod certificates;
#[cfg(test)]
mod constraints;
#[cfg(test)]
mod instances;
#[cfg(test)]
mod meaning;
#[cfg(test)]
mod properties;
