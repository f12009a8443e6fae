ghost use Rattle.std.specs.Prelude.{◌≡◌, refl};
ghost use Rattle.catalogue.specs.Operations.{nearest_reading};
ghost use Rattle.binary32.specs.Rounding.{Rounds};
ghost use Rattle.binary32.specs.Binary32.{binary as Meant, binary32 as Arithmetic32, exact_of};
ghost use Rattle.binary32.specs.Theory.{Stands};
ghost use Rattle.binary32.specs.Theorems.{binary32_laws, binary_laws};

use crate::patterns::{read, write};
use crate::readings::{GREATEST, LEAST, Reading};
use crate::sums::span_of;
use catalogue::arithmetic::{Arithmetic, FixedReadings, Readings};
use catalogue::interface::{Catalogue, FixedEnds};
use catalogue::narrowing::narrow;
use catalogue::partners::partner;
use catalogue::types::{Kind, Mode, Modes, Operation, Range, Refusal, Span, Triple};

/// Boards that compute in IEEE 754 binary32.
#[derive(Clone, Copy, Debug, PartialEq, Eq)]
pub struct Binary32;

impl Binary32 {
    /// The catalogue, with what is proved of its definitions.
    pub fn new() -> Binary32
        ensures theory { Stands }
    {
        Binary32
    }
}

/// The result of an operation on two ranks under one mode. An operand that is no reading counts as the reading nearest to it.
pub fn round(kind: Kind, mode: Mode, x: i32, y: i32) -> i32
    ensures value { result ≡ Arithmetic32.result kind mode (nearest_reading Arithmetic32 x) (nearest_reading Arithmetic32 y) }
    ensures standard { Rounds mode (exact_of kind (nearest_reading Arithmetic32 x) (nearest_reading Arithmetic32 y)) result }
{
    let operation = Operation {
        kind,
        modes: Modes::only(mode),
    };
    Binary32.span(operation, x, y).least
}

impl Readings for Binary32 {
    const LEAST: i32 = LEAST;

    const GREATEST: i32 = GREATEST;

    ghost LEAST = { Arithmetic32.least };

    ghost GREATEST = { Arithmetic32.greatest };
}

impl Arithmetic for Binary32 {
    ghost arith = { λ _. Arithmetic32 };

    ghost laws = { λ c. binary32_laws };

    fn readings(&self) -> Range {
        <Binary32 as Readings>::readings()
    }

    fn span(&self, operation: Operation, x: i32, y: i32) -> Span {
        span_of(operation, Reading::nearest(x), Reading::nearest(y))
    }
}

impl Catalogue for Binary32 {
    const LEAST: i32 = <Binary32 as Readings>::LEAST;

    const GREATEST: i32 = <Binary32 as Readings>::GREATEST;

    ghost meaning = { λ _. Meant };

    ghost laws = { λ c. binary_laws };

    fn ends(&self) -> Range {
        self.readings()
    }

    fn rank(&self, pattern: u32) -> Result<i32, Refusal> {
        read(pattern)
    }

    fn pattern(&self, rank: i32) -> u32 {
        write(rank)
    }

    // Here and below one call of the one generic function; why there is no blanket impl: docs/DECISIONS.md, Three traits.
    fn narrow(&self, operation: Operation, given: Triple) -> Option<Triple> {
        narrow(self, operation, given)
    }

    fn partner(&self, operation: Operation, x: i32, z: i32, y: Range) -> Option<i32> {
        partner(self, operation, x, z, y)
    }
}

impl FixedReadings for Binary32 {
    ghost ends = { λ c. refl };
}

impl FixedEnds for Binary32 {
    ghost ends = { λ c. refl };
}
