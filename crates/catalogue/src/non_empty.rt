ghost use Rattle.std.specs.Prelude.{◌≡◌, if◌then◌else◌};
ghost use Rattle.catalogue.specs.Ranges.{Proper, extent};

use crate::types::Range;
use std::marker::Model;

/// A range that has a rank: its low is not above its high. Clauses see the range itself.
#[derive(Clone, Copy, Debug, PartialEq, Eq)]
pub struct NonEmpty {
    pub(crate) bounds: Range,
}

impl Model for NonEmpty {
    ghost use Rattle.catalogue.specs.Ranges.{Proper};
    ghost use Rattle.catalogue.specs.declared.types.Range.{Range};

    ghost Value = { Range };

    ghost view = { λ n. n.bounds };

    ghost invariant = { λ n. Proper n.bounds };

    ghost inverse = { λ r. record { bounds = r } };
}

impl NonEmpty {
    pub fn range(self) -> Range
        ensures value { result ≡ self }
        ensures proper { Proper result }
    {
        self.bounds
    }

    pub fn low(self) -> i32
        ensures { result ≡ self.low }
    {
        self.range().low
    }

    pub fn high(self) -> i32
        ensures { result ≡ self.high }
    {
        self.range().high
    }

    /// The high end, or the low one: a flag, as `falls_in_y` answers it.
    pub(crate) fn end(self, high: bool) -> i32
        ensures { result ≡ (if high then self.high else self.low) }
    {
        if high { self.high() } else { self.low() }
    }

    /// High less low.
    pub(crate) fn extent(self) -> u32
        ensures { result ≡ extent self }
    {
        self.high().abs_diff(self.low())
    }
}
