//! Tests of references and relations.
#![tactic(auto)]

#[cfg(test)]
mod forward;
