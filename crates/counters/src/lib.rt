//! Operations that stop at an end, and the catalogue of 24-bit counters.

#![tactic(auto)]

pub mod counter;
mod stopping;
#[cfg(test)]
mod upto;
