//! A plain second body of the closure: saturation with tables made from scratch, and no certificates.
#![tactic(auto)]

pub mod plain;
