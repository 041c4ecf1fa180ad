//! Tests of the words of the command line and of files, streams and gates.
#![tactic(auto)]

#[cfg(test)]
mod files;
#[cfg(test)]
mod gates;
#[cfg(test)]
mod lists;
#[cfg(test)]
mod streams;
#[cfg(test)]
mod words;
