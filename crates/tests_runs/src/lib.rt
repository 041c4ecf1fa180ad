//! Tests of runs and demos with several workers.
#![tactic(auto)]

#[cfg(test)]
mod calls;
#[cfg(test)]
mod demos;
#[cfg(test)]
mod gates;
#[cfg(test)]
mod meets;
#[cfg(test)]
mod passes;
#[cfg(test)]
mod runs;
#[cfg(test)]
mod turning;
