//! Values, ranks and the four roundings, and the catalogue binary32.

#![tactic(auto)]

pub mod binary32;
mod magnitudes;
mod patterns;
mod readings;
mod sums;
pub mod types;
