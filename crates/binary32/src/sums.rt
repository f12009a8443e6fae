ghost use Rattle.std.specs.Prelude.{◌≡◌, ◌+◌, ◌≤◌, min, ◌+ℤ◌, neg_ℤ, unsigned_abs};
ghost use Rattle.catalogue.specs.Modes.{greatest_of, least_of};
ghost use Rattle.catalogue.specs.Operations.{greatest_result, least_result};
ghost use Rattle.binary32.specs.Units.{beyond, value};
ghost use Rattle.binary32.specs.Locations.{Locates};
ghost use Rattle.binary32.specs.Computed.{directed_to, magnitude_by, rank_by, to_nearest, widened};
ghost use Rattle.binary32.specs.Binary32.{binary32 as Arithmetic32};

use crate::magnitudes::locate;
use crate::readings::{BEYOND, LARGEST, Reading, signed};
use crate::types::{ExactSum, Location, Rest};
use catalogue::types::{Kind, Mode, Modes, Operation, Span};
use std::ops::{Add, Sub};

impl Location {
    /// The magnitude `up` above the rank's, but at most the first past the readings.
    fn raised(self, up: u32) -> u32
        ensures { result ≡ min (self.rank + up) beyond }
    {
        self.rank.saturating_add(up).min(BEYOND)
    }

    /// The magnitude away from zero or toward it; only away from zero is there one beyond the readings.
    // A flag and no enum: a sum's sign decides it, turned or as it is.
    fn directed(self, away: bool) -> u32
        ensures { result ≡ directed_to away self.rank self.rest }
    {
        match (away, self.rest) {
            (false, _) => self.rank.min(LARGEST),
            (true, Rest::Exact) => self.raised(0),
            (true, Rest::BelowMiddle | Rest::Middle | Rest::AboveMiddle) => self.raised(1),
        }
    }

    /// The nearest magnitude, at a tie the even one.
    fn nearest(self) -> u32
        ensures { result ≡ to_nearest self.rank self.rest }
    {
        match self.rest {
            Rest::Exact | Rest::BelowMiddle => self.raised(0),
            Rest::Middle => self.raised(self.rank % 2),
            Rest::AboveMiddle => self.raised(1),
        }
    }
}

impl ExactSum {
    /// The magnitude that a mode gives.
    fn magnitude(self, mode: Mode) -> u32
        ensures { result ≡ magnitude_by mode self.negative self.location.rank self.location.rest }
    {
        let at = self.location;
        match mode {
            Mode::Nearest => at.nearest(),
            Mode::Up => at.directed(!self.negative),
            Mode::Down => at.directed(self.negative),
            Mode::TowardZero => at.directed(false),
        }
    }

    /// The rank that a mode gives.
    fn round(self, mode: Mode) -> i32
        ensures { result ≡ rank_by self mode }
    {
        signed(self.negative, self.magnitude(mode))
    }

    /// A span with one more mode's rank, where the set has the mode.
    fn widen(self, modes: Modes, span: Span, mode: Mode) -> Span
        ensures { result ≡ widened self modes span mode }
    {
        if modes.has(mode) {
            let rank = self.round(mode);
            Span {
                least: span.least.min(rank),
                greatest: span.greatest.max(rank),
            }
        } else {
            span
        }
    }

    /// The least and the greatest rank among the modes of a set, mode by mode.
    fn span_of_each(self, modes: Modes) -> Span
        ensures least { result.least ≡ least_of modes (rank_by self) }
        ensures greatest { result.greatest ≡ greatest_of modes (rank_by self) }
    {
        let first = Span::of(self.round(modes.first()));
        [Mode::Up, Mode::Down, Mode::TowardZero]
            .iter()
            .fold(first, |span, &mode| self.widen(modes, span, mode))
    }

    /// The ranks that down and up give.
    fn directed_span(self) -> Span
        ensures least { result.least ≡ rank_by self Mode.Down }
        ensures greatest { result.greatest ≡ rank_by self Mode.Up }
    {
        Span {
            least: self.round(Mode::Down),
            greatest: self.round(Mode::Up),
        }
    }

    /// The least and the greatest rank among the modes of a set. No mode gives less than down, and none more than up.
    // Inlined, as a sum is.
    #[inline(always)]
    fn span(self, modes: Modes) -> Span
        ensures least { result.least ≡ least_of modes (rank_by self) }
        ensures greatest { result.greatest ≡ greatest_of modes (rank_by self) }
    {
        if modes.has(Mode::Down) && modes.has(Mode::Up) {
            self.directed_span()
        } else {
            self.span_of_each(modes)
        }
    }
}

/// Two readings, the one of larger magnitude first. A choice of two values is faster here than a choice of two calls.
fn ordered(x: Reading, y: Reading) -> (Reading, Reading)
    ensures order { unsigned_abs result.1 ≤ unsigned_abs result.0 }
    ensures sum { value result.0 +ℤ value result.1 ≡ value x +ℤ value y }
{
    if y.magnitude() <= x.magnitude() {
        (x, y)
    } else {
        (y, x)
    }
}

/// The exact sum of two readings, the one of larger magnitude first: it has that one's sign.
fn sum_of(larger: Reading, smaller: Reading) -> ExactSum
    requires { unsigned_abs smaller ≤ unsigned_abs larger }
    ensures { Locates (value larger +ℤ value smaller) result }
{
    let negative = larger.is_negative();
    let like = negative == smaller.is_negative();
    ExactSum {
        negative,
        location: locate(larger.magnitude(), smaller.magnitude(), like),
    }
}

/// The exact sum.
impl Add for Reading {
    type Output = ExactSum;

    ghost add_gives = { λ x y s. Locates (value x +ℤ value y) s };

    // Inlined, as `ExactSum::span` is, since a search makes little else.
    #[inline(always)]
    fn add(self, other: Reading) -> ExactSum {
        let (larger, smaller) = ordered(self, other);
        sum_of(larger, smaller)
    }
}

/// The exact difference.
impl Sub for Reading {
    type Output = ExactSum;

    ghost sub_gives = { λ x y s. Locates (value x +ℤ neg_ℤ (value y)) s };

    fn sub(self, other: Reading) -> ExactSum {
        self + -other
    }
}

/// The least and the greatest result of an operation on readings.
pub(crate) fn span_of(operation: Operation, x: Reading, y: Reading) -> Span
    ensures least { result.least ≡ least_result Arithmetic32 operation.kind operation.modes x y }
    ensures greatest { result.greatest ≡ greatest_result Arithmetic32 operation.kind operation.modes x y }
{
    match operation.kind {
        Kind::Sum => (x + y).span(operation.modes),
        Kind::Difference => (x - y).span(operation.modes),
        Kind::Peak => Span::of(x.rank().max(y.rank())),
    }
}
