ghost use Rattle.std.specs.Prelude.{◌≡◌};
ghost use Rattle.catalogue.specs.Ranges.{empty, holds, holds_all, meet, smaller, unless_empty};

use crate::non_empty::NonEmpty;
use crate::types::{Range, Span};

impl Range {
    /// Whether a rank lies in the range.
    pub fn holds(self, rank: i32) -> bool
        ensures { result ≡ holds self rank }
    {
        self.low <= rank && rank <= self.high
    }

    /// Whether the range holds all ranks of another: it holds both ends.
    pub fn holds_all(self, other: Range) -> bool
        ensures { result ≡ holds_all self other }
    {
        self.low <= other.low && other.high <= self.high
    }

    /// Whether the range, which lies within another, is smaller than that. No `!=`, since each end is compared in the
    /// direction in which it can have moved.
    pub fn is_smaller_than(self, other: Range) -> bool
        ensures { result ≡ smaller self other }
    {
        other.low < self.low || self.high < other.high
    }

    /// Whether the range has no rank.
    pub fn is_empty(self) -> bool
        ensures { result ≡ empty self }
    {
        self.high < self.low
    }

    /// The range, unless it is empty. With `then` the proof did not close, since its closure does not know that the test held.
    pub fn unless_empty(self) -> Option<NonEmpty>
        ensures { result ≡ unless_empty self }
    {
        if self.is_empty() {
            None
        } else {
            Some(NonEmpty { bounds: self })
        }
    }

    /// What two ranges have in common; empty where its low is above its high.
    pub fn meet(self, other: Range) -> Range
        ensures { result ≡ meet self other }
    {
        Range {
            low: self.low.max(other.low),
            high: self.high.min(other.high),
        }
    }
}

impl Span {
    /// The span of one rank alone.
    pub fn of(rank: i32) -> Span
        ensures least { result.least ≡ rank }
        ensures greatest { result.greatest ≡ rank }
    {
        Span {
            least: rank,
            greatest: rank,
        }
    }
}
