//! The interface to a board's arithmetic, its laws, and the one narrowing text.

#![tactic(auto)]

pub mod arithmetic;
mod constraint;
pub mod interface;
mod modes;
pub mod narrowing;
pub mod non_empty;
mod numbers;
pub mod partners;
mod ranges;
mod refusals;
mod search;
pub mod types;
