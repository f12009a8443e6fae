ghost use Rattle.std.specs.Prelude.{◌≡◌, FitsSigned};
ghost use Rattle.std.specs.Int.{w32};
ghost use Rattle.catalogue.specs.First.{first as First};
ghost use Rattle.catalogue.specs.Search.{asked_span, edge as Edge, moved as Moved, origin as Origin, passes as Passes, rises as Rises};

use crate::arithmetic::Arithmetic;
use crate::non_empty::NonEmpty;
use crate::types::{Asks, Kind, Mode, Modes, Operand, Operation, Question, Range, Span};

/// The rank `k` above another, or below it: a flag, as `rises` answers it. That it is a number of 32 bits is no fact about one value, but about all
/// three, so that it stands as a precondition here and below.
fn moved(up: bool, from: i32, k: u32) -> i32
    requires { FitsSigned w32 (Moved up from k) }
    ensures { result ≡ Moved up from k }
{
    if up {
        (from as i64 + k as i64) as i32
    } else {
        (from as i64 - k as i64) as i32
    }
}

/// Where a search that rises or falls begins.
fn origin(rises: bool, range: Range) -> i32
    ensures { result ≡ Origin rises range }
{
    if rises { range.low } else { range.high }
}

// The arithmetic goes beside a question and not into it, since a question is a value that the definitions speak of.
impl Question {
    /// The least and the greatest result with a rank in the place that is asked about.
    fn span<A: Arithmetic>(self, arithmetic: &A, rank: i32) -> Span
        ensures { result ≡ asked_span (A.arith arithmetic.now) self rank }
    {
        match self.operand {
            Operand::X => arithmetic.span(self.operation, rank, self.other),
            Operand::Y => arithmetic.span(self.operation, self.other, rank),
        }
    }

    /// Whether a rank passes.
    fn passes<A: Arithmetic>(self, arithmetic: &A, rank: i32) -> bool
        ensures { result ≡ Passes (A.arith arithmetic.now) self rank }
    {
        let span = self.span(arithmetic, rank);
        match self.asks {
            Asks::AtLeast => self.bound <= span.greatest,
            Asks::AtMost => span.least <= self.bound,
        }
    }

    /// Whether what passes keeps passing as the rank grows, and not as it falls.
    pub(crate) fn rises(self) -> bool
        ensures { result ≡ Rises self }
    {
        let falls = match self.operand {
            Operand::X => false,
            Operand::Y => self.operation.kind.falls_in_y(),
        };
        match self.asks {
            Asks::AtLeast => !falls,
            Asks::AtMost => falls,
        }
    }

    /// Whether the rank `k` on from another passes.
    fn passes_at<A: Arithmetic>(self, arithmetic: &A, from: i32, k: u32) -> bool
        requires { FitsSigned w32 (Moved (Rises self) from k) }
        ensures { result ≡ Passes (A.arith arithmetic.now) self (Moved (Rises self) from k) }
    {
        self.passes(arithmetic, moved(self.rises(), from, k))
    }

    /// A rank near which the last that fails is likely to lie: the rank just short of the bound, with the other operand
    /// taken off. Only the time that a search takes depends on it.
    fn likely<A: Arithmetic>(self, arithmetic: &A) -> i32 {
        let short = match self.asks {
            Asks::AtLeast => self.bound.saturating_sub(1),
            Asks::AtMost => self.bound.saturating_add(1),
        };
        let (kind, x, y) = match (self.operation.kind, self.operand) {
            (Kind::Sum, _) => (Kind::Difference, short, self.other),
            (Kind::Difference, Operand::X) => (Kind::Sum, short, self.other),
            (Kind::Difference, Operand::Y) => (Kind::Difference, self.other, short),
            (Kind::Peak, _) => return short,
        };
        let mode = if self.rises() { Mode::Down } else { Mode::Up };
        let modes = Modes::only(mode);
        arithmetic.span(Operation { kind, modes }, x, y).least
    }

    /// How many ranks, at most `n`, to go on from another to the first that passes.
    /// The ends are tested first, then what is likely; from there the steps grow while they fail, or pass, alike, and then
    /// halve.
    fn distance<A: Arithmetic>(self, arithmetic: &A, from: i32, n: u32) -> Option<u32>
        requires { FitsSigned w32 (Moved (Rises self) from n) }
        ensures { result ≡ First (λ k. Passes (A.arith arithmetic.now) self (Moved (Rises self) from k)) n }
    {
        if self.passes_at(arithmetic, from, 0) {
            return Some(0);
        }
        if !self.passes_at(arithmetic, from, n) {
            return None;
        }
        // A likely rank that lies behind says that the first one to pass lies near.
        let likely = if self.rises() {
            self.likely(arithmetic).max(from)
        } else {
            self.likely(arithmetic).min(from)
        };
        let mut low = 0;
        let mut high = n;
        let mut next = from.abs_diff(likely).saturating_add(1);
        let mut step: u32 = 1;
        // No index is counted: two bounds close in on each other. All before `low` fail, and `high` passes.
        while low < high {
            let middle = next.clamp(low, high - 1);
            if self.passes_at(arithmetic, from, middle) {
                high = middle;
                next = middle.saturating_sub(step.min((high - low) / 2));
            } else {
                low = middle + 1;
                next = middle.saturating_add(step.min((high - low) / 2));
            }
            step = step.saturating_mul(16);
        }
        Some(high)
    }

    /// The end of what passes in a range.
    pub(crate) fn edge<A: Arithmetic>(self, arithmetic: &A, range: NonEmpty) -> Option<i32>
        ensures { result ≡ Edge (A.arith arithmetic.now) self range }
    {
        let from = origin(self.rises(), range.range());
        let k = self.distance(arithmetic, from, range.extent())?;
        Some(moved(self.rises(), from, k))
    }
}
