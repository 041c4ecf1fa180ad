//! Tests of the core of a work.
#![tactic(auto)]

#[cfg(test)]
mod events;
#[cfg(test)]
mod literal;
#[cfg(test)]
mod loops;
#[cfg(test)]
mod made;
#[cfg(test)]
mod matrices;
#[cfg(test)]
mod nest;
#[cfg(test)]
mod orders;
#[cfg(test)]
mod replays;
#[cfg(test)]
mod works;
