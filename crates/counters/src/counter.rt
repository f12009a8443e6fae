ghost use Rattle.std.specs.Prelude.{pos, refl};
ghost use Rattle.counters.specs.Counters.{counter as Meant};
ghost use Rattle.counters.specs.Stopping.{stopping};
ghost use Rattle.std.proofs.Common.{lit<};
ghost use Rattle.counters.specs.Stops.{stopping_laws, counting_laws};

use crate::stopping::Scale;
use catalogue::arithmetic::{Arithmetic, FixedReadings, Readings};
use catalogue::interface::{Catalogue, FixedEnds};
use catalogue::narrowing::narrow;
use catalogue::partners::partner;
use catalogue::types::{Operation, Range, Refusal, Span, Triple};

/// Counters of 24 bits, whose sums stop at the greatest reading and whose differences stop at 0.
#[derive(Clone, Copy, Debug, PartialEq, Eq)]
pub struct Counter;

/// The counter's readings.
const SCALE: Scale = Scale { end: 16_777_215 };

impl Readings for Counter {
    const LEAST: i32 = 0;

    const GREATEST: i32 = SCALE.end as i32;

    ghost LEAST = { pos 0 };

    ghost GREATEST = { pos 16777215 };
}

impl Arithmetic for Counter {
    ghost arith = { λ _. stopping 16777215 };

    ghost laws = { λ c. stopping_laws 16777215 (lit< tt) };

    fn readings(&self) -> Range {
        <Counter as Readings>::readings()
    }

    fn span(&self, operation: Operation, x: i32, y: i32) -> Span {
        SCALE.span(operation, x, y)
    }
}

impl Catalogue for Counter {
    const LEAST: i32 = <Counter as Readings>::LEAST;

    const GREATEST: i32 = <Counter as Readings>::GREATEST;

    ghost meaning = { λ _. Meant };

    ghost laws = { λ c. counting_laws 16777215 (lit< tt) };

    fn ends(&self) -> Range {
        self.readings()
    }

    fn rank(&self, pattern: u32) -> Result<i32, Refusal> {
        SCALE.rank(pattern)
    }

    fn pattern(&self, rank: i32) -> u32 {
        SCALE.pattern(rank)
    }

    // Here and below one call of the one generic function; why there is no blanket impl: docs/DECISIONS.md, Three traits.
    fn narrow(&self, operation: Operation, given: Triple) -> Option<Triple> {
        narrow(self, operation, given)
    }

    fn partner(&self, operation: Operation, x: i32, z: i32, y: Range) -> Option<i32> {
        partner(self, operation, x, z, y)
    }
}

impl FixedReadings for Counter {
    ghost ends = { λ c. refl };
}

impl FixedEnds for Counter {
    ghost ends = { λ c. refl };
}
