ghost use Rattle.std.specs.Prelude.{◌≡◌, ℤ};
ghost use Rattle.catalogue.specs.Operations.{Arith, ArithLaws, readings, span_of};

use crate::types::{Operation, Range, Span};

/// The least and the greatest reading of a board, as constants of its type: every rank between is a reading too. Where they
/// are the same for each value of the type, `FixedReadings` and `FixedEnds` say so.
pub trait Readings {
    /// The least reading.
    const LEAST: i32;
    /// The greatest reading.
    const GREATEST: i32;

    ghost LEAST: { ℤ };

    ghost GREATEST: { ℤ };

    /// All readings, as a range.
    final fn readings() -> Range
        ensures { result ≡ record { low = LEAST; high = GREATEST } }
    {
        Range {
            low: Self::LEAST,
            high: Self::GREATEST,
        }
    }
}

/// A board's arithmetic on ranks: what the one narrowing text needs of it.
pub trait Arithmetic {
    ghost arith: { Self → Arith };

    /// The readings: every rank from the least to the greatest.
    fn readings(&self) -> Range
        ensures { result ≡ readings (arith self.now) };

    /// The least and the greatest result of an operation among the modes of its set.
    /// An operand that is no reading counts as the reading nearest to it.
    fn span(&self, operation: Operation, x: i32, y: i32) -> Span
        ensures { result ≡ span_of (arith self.now) operation.kind operation.modes x y };

    ghost laws: { (c : Self) → ArithLaws (arith c) };
}

/// An arithmetic whose readings are the same for every value: those between the constants.
pub trait FixedReadings: Arithmetic + Readings {
    ghost ends: { (c : Self) → readings (Self.arith c) ≡ record { low = Self.LEAST; high = Self.GREATEST } };
}
