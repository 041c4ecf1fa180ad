//! The waits that tasks on several workers need, and no others.
#![tactic(auto)]

mod attached;
mod crossing;
mod followers;
mod kept;
mod numbered;
pub mod plain;
pub mod sparsify;
mod stamped;
