//! Tests of the readers of Matrix Market texts, of compressed arrays and of made matrices.
#![tactic(auto)]

#[cfg(test)]
mod compressed;
#[cfg(test)]
mod generated;
#[cfg(test)]
mod matrices;
#[cfg(test)]
mod vectors;
