//! Lines, rules and calls of a sheet, over any catalogue.

#![tactic(auto)]

pub mod board;
mod calls;
mod checks;
mod events;
pub mod lines;
mod outcome;
pub mod places;
pub mod registers;
mod rules;
pub mod sheet;
pub mod table;
mod tying;

/// How many registers a sheet has.
pub const REGISTERS: usize = 32;

/// How many places a sheet has.
pub const PLACES: usize = 64;

/// The largest budget of a settle.
pub const MOST_STEPS: u32 = 65_535;
