ghost use Rattle.std.specs.Prelude.{◌≡◌};
ghost use Rattle.catalogue.specs.Meanings.{Meaning, Laws, all_readings, rank_or_2};
ghost use Rattle.catalogue.specs.Refusals.{numbered};

use crate::arithmetic::Readings;
use crate::types::{Operation, Range, Refusal, Triple};

/// A board's arithmetic as a sheet sees it. Its meaning belongs to the value, and no call alters it.
pub trait Catalogue {
    /// The least reading, where it is the same for every value.
    const LEAST: i32;
    /// The greatest reading, where it is the same for every value.
    const GREATEST: i32;

    ghost meaning: { Self → Meaning };

    /// All readings, as a range.
    fn ends(&self) -> Range
        ensures { result ≡ all_readings (meaning self.now) };

    /// The rank of a pattern, or refusal 2 if it is no reading.
    fn rank(&self, pattern: u32) -> Result<i32, Refusal>
        ensures { numbered result ≡ rank_or_2 ((meaning self.now).reads pattern) };

    /// The one pattern by which a rank is written.
    fn pattern(&self, rank: i32) -> u32
        ensures { result ≡ (meaning self.now).writes rank };

    /// The given ranges narrowed by one operation, or none.
    fn narrow(&self, operation: Operation, given: Triple) -> Option<Triple>
        ensures { result ≡ (meaning self.now).narrowed operation.kind operation.modes given };

    /// Some y of a range that makes an allowed triple with x and z, or none if there is none.
    fn partner(&self, operation: Operation, x: i32, z: i32, y: Range) -> Option<i32>
        ensures { result ≡ (meaning self.now).partner operation.kind operation.modes x z y };

    ghost laws: { (c : Self) → Laws (meaning c) };
}

/// A catalogue whose ends are the same for every value: the constants of `Readings`.
pub trait FixedEnds: Catalogue + Readings {
    ghost ends: { (c : Self) → all_readings (Self.meaning c) ≡ record { low = Self.LEAST; high = Self.GREATEST } };
}
