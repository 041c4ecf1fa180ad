//! Tests of predecessors, levels, tasks, waits and whole schedules.
#![tactic(auto)]

#[cfg(test)]
mod copies;
#[cfg(test)]
mod graph;
#[cfg(test)]
mod levels;
#[cfg(test)]
mod plans;
#[cfg(test)]
mod shown;
#[cfg(test)]
mod tasks;
#[cfg(test)]
mod waits;
