//! Tests of the public calls of the libraries, for what neither a contract nor a report of `acceptance` covers.
//!
//! They are in one crate above all libraries: a crate with tests is proved a second time, and what two crates of tests
//! share would be proved in each.
#![tactic(auto)]

#[cfg(test)]
mod cores;
#[cfg(test)]
mod hashing;
#[cfg(test)]
mod quick;
#[cfg(test)]
mod runs;
#[cfg(test)]
mod specifications;
#[cfg(test)]
mod successors;
#[cfg(test)]
mod texts;
#[cfg(test)]
mod values;
#[cfg(test)]
mod workers;
#[cfg(test)]
mod writer;
