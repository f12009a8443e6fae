ghost use Rattle.std.specs.Prelude.{◌≡◌, ◌^◌, ◌<◌};
ghost use Rattle.catalogue.specs.Operations.{Reading, nearest_reading, span_of};
ghost use Rattle.catalogue.specs.Meanings.{rank_or_2};
ghost use Rattle.catalogue.specs.Refusals.{numbered};
ghost use Rattle.counters.specs.Counters.{read_to, write_to};
ghost use Rattle.counters.specs.Stopping.{stopped, stopping};

use catalogue::types::{Kind, Operation, Refusal, Span};

/// Readings from 0 to an end, at which sums stop; differences stop at 0.
#[derive(Clone, Copy, Debug, PartialEq, Eq)]
pub(crate) struct Scale {
    pub(crate) end: u32,
    ghost fits: { end < 2 ^ 30 },
}

impl Scale {
    /// The reading nearest to a rank. `Reading::nearest` of binary32 does the same between two constants; here the end is a
    /// field.
    fn nearest(self, rank: i32) -> i32
        ensures value { result ≡ nearest_reading (stopping self.end) rank }
        ensures reads { Reading (stopping self.end) result }
    {
        rank.clamp(0, self.end as i32)
    }

    /// The result of an operation. An operand that is no reading counts as the nearest one.
    fn result(self, kind: Kind, x: i32, y: i32) -> i32
        ensures { result ≡ stopped self.end kind (nearest_reading (stopping self.end) x) (nearest_reading (stopping self.end) y) }
    {
        let x = self.nearest(x);
        let y = self.nearest(y);
        match kind {
            Kind::Sum => (x + y).min(self.end as i32),
            Kind::Difference => (x - y).max(0),
            Kind::Peak => x.max(y),
        }
    }

    /// The least and the greatest result, which are one: modes have no effect.
    pub(crate) fn span(self, operation: Operation, x: i32, y: i32) -> Span
        ensures { result ≡ span_of (stopping self.end) operation.kind operation.modes x y }
    {
        Span::of(self.result(operation.kind, x, y))
    }

    /// The rank of a pattern, unless it is past the end.
    pub(crate) fn rank(self, pattern: u32) -> Result<i32, Refusal>
        ensures { numbered result ≡ rank_or_2 (read_to self.end pattern) }
    {
        if pattern <= self.end {
            Ok(pattern as i32)
        } else {
            Err(Refusal::NotAReading)
        }
    }

    /// The pattern by which a rank is written.
    pub(crate) fn pattern(self, rank: i32) -> u32
        ensures { result ≡ write_to self.end rank }
    {
        self.nearest(rank) as u32
    }
}
