//! Tests of verdicts on the relations of worked loops, of what is printed of them, and of certificates cut down.
#![tactic(auto)]

#[cfg(test)]
mod counts;
#[cfg(test)]
mod explained;
#[cfg(test)]
mod judged;
#[cfg(test)]
mod made;
#[cfg(test)]
mod once;
#[cfg(test)]
mod printed;
#[cfg(test)]
mod pruned;
#[cfg(test)]
mod second;
#[cfg(test)]
mod short;
#[cfg(test)]
mod texts;
