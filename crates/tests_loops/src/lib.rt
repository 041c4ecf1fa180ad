//! Tests of nests and of what they mean.
#![tactic(auto)]

#[cfg(test)]
mod deep;
#[cfg(test)]
mod locals;
#[cfg(test)]
mod meaning;
#[cfg(test)]
mod nests;
#[cfg(test)]
mod operators;
#[cfg(test)]
mod outside;
#[cfg(test)]
mod parts;
#[cfg(test)]
mod runs;
#[cfg(test)]
mod touched;
#[cfg(test)]
mod weights;
