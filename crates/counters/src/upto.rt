//! Counters up to an end that is told at run time. No board has them: they show that the ends of a catalogue may belong to
//! its value, and that an arithmetic may be called without its type being known.

ghost use Rattle.counters.specs.Counters.{counting};
ghost use Rattle.counters.specs.Stopping.{stopping};
ghost use Rattle.counters.specs.Stops.{stopping_laws, counting_laws};

use crate::stopping::Scale;
use catalogue::arithmetic::Arithmetic;
use catalogue::interface::Catalogue;
use catalogue::narrowing::narrow;
use catalogue::partners::partner;
use catalogue::types::{Kind, Mode, Modes, Operation, Range, Refusal, Span, Triple};

#[derive(Drop)]
struct Upto {
    scale: Scale,
}

impl Arithmetic for Upto {
    ghost arith = { λ c. stopping c.scale.end };

    ghost laws = { λ c. stopping_laws c.scale.end c.scale.fits };

    fn readings(&self) -> Range {
        Range {
            low: 0,
            high: self.scale.end as i32,
        }
    }

    fn span(&self, operation: Operation, x: i32, y: i32) -> Span {
        self.scale.span(operation, x, y)
    }
}

impl Catalogue for Upto {
    const LEAST: i32 = 0;

    const GREATEST: i32 = 1_073_741_823;

    ghost meaning = { λ c. counting c.scale.end };

    ghost laws = { λ c. counting_laws c.scale.end c.scale.fits };

    fn ends(&self) -> Range {
        self.readings()
    }

    fn rank(&self, pattern: u32) -> Result<i32, Refusal> {
        self.scale.rank(pattern)
    }

    fn pattern(&self, rank: i32) -> u32 {
        self.scale.pattern(rank)
    }

    fn narrow(&self, operation: Operation, given: Triple) -> Option<Triple> {
        narrow(self, operation, given)
    }

    fn partner(&self, operation: Operation, x: i32, z: i32, y: Range) -> Option<i32> {
        partner(self, operation, x, z, y)
    }
}

/// The greatest sum of two ranks, by any arithmetic.
fn greatest_sum(arithmetic: &dyn Arithmetic, x: i32, y: i32) -> i32 {
    let operation = Operation {
        kind: Kind::Sum,
        modes: Modes::only(Mode::Nearest),
    };
    arithmetic.span(operation, x, y).greatest
}

#[test]
fn ends_are_those_of_the_value(rt: HostRuntime) {
    let short = Upto {
        scale: Scale { end: 100 },
    };
    let long = Upto {
        scale: Scale { end: 1_000 },
    };
    assert_eq!(rt; short.ends(), Range { low: 0, high: 100 });
    assert_eq!(rt;
        long.ends(),
        Range {
            low: 0,
            high: 1_000
        }
    );
    assert_eq!(rt; greatest_sum(&short, 60, 70), 100);
    assert_eq!(rt; greatest_sum(&long, 60, 70), 130);
    assert!(rt; short.rank(101).is_err(), "101 is past the end");
    assert!(rt; long.rank(101) == Ok(101), "101 is a reading");
}
