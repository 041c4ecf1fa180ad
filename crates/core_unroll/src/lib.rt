//! The workers' scripts of a fit nest, unrolled.
#![tactic(auto)]

pub mod begin;
pub mod reads;
pub mod scripts;
pub mod statements;
pub mod unroll;
pub mod unrolling;
