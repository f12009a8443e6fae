ghost use Rattle.std.specs.Prelude.{◌≡◌, ◌<◌};

use crate::PLACES;
use catalogue::types::Refusal;
use std::marker::Model;

/// One of a sheet's places for lines. A type apart from `Register`, and not one with a parameter: that would need a
/// trait for the refusal, which is longer than what the two repeat.
#[derive(Clone, Copy, Debug, PartialEq, Eq)]
pub struct Place {
    number: u8,
}

impl Model for Place {
    ghost use Rattle.std.specs.Prelude.{ℕ, ◌<◌};

    ghost Value = { ℕ };

    ghost view = { λ p. p.number };

    ghost use Rattle.sheet.specs.declared.TheConstants.{PLACES};

    ghost invariant = { λ p. p.number < PLACES };

    ghost inverse = { λ n. record { number = n } };
}

impl Place {
    /// The place's number, as an index.
    pub fn index(self) -> usize
        ensures value { result ≡ self }
        ensures below { result < PLACES }
    {
        self.number as usize
    }
}

impl TryFrom<u32> for Place {
    ghost use Rattle.sheet.specs.Numbers.{NamesPlace};

    type Error = Refusal;

    ghost try_from_gives = { NamesPlace };

    fn try_from(number: u32) -> Result<Self, Refusal> {
        if number as usize >= PLACES {
            return Err(Refusal::NoLineThere);
        }
        Ok(Place {
            number: number as u8,
        })
    }
}

/// A set of places: place n is in it if bit n is set. So a step finds and marks lines without a scan and without a heap.
/// A contract sees the set and not its bits.
#[derive(Clone, Copy)]
pub struct Places {
    bits: u64,
}

impl Model for Places {
    ghost use Rattle.std.specs.Prelude.{Bool, List, ◌<◌, ◌^◌};

    ghost Value = { List Bool };

    ghost use Rattle.sheet.specs.Bits.{number_back, number_of, set_of};

    ghost view = { λ p. set_of p.bits };

    ghost invariant = { λ p. p.bits < 2 ^ 64 };

    ghost inverse = { λ s. record { bits = number_of s } };

    ghost use Rattle.std.proofs.Common.{ap};

    ghost inverse_ok = { λ p h. ap (λ b. record { bits = b }) (number_back p.bits h) };
}

impl Places {
    ghost use Rattle.sheet.specs.Places.{Lowest, has, is_none, lowest, none, union, with_place, without};

    /// The empty set.
    pub(crate) fn none() -> Places
        ensures { result ≡ none }
    {
        Places { bits: 0 }
    }

    /// Whether a place is in the set.
    pub(crate) fn has(self, place: Place) -> bool
        ensures { result ≡ has self place }
    {
        (self.bits >> place.number) % 2 == 1
    }

    /// The set with one place more.
    pub(crate) fn with(self, place: Place) -> Places
        ensures { result ≡ with_place place self }
    {
        Places {
            bits: self.bits | (1 << place.number),
        }
    }

    /// The set without a place.
    pub(crate) fn without(self, place: Place) -> Places
        ensures { result ≡ without place self }
    {
        Places {
            bits: self.bits & !(1 << place.number),
        }
    }

    /// The places of both sets.
    pub(crate) fn union(self, other: Places) -> Places
        ensures { result ≡ union self other }
    {
        Places {
            bits: self.bits | other.bits,
        }
    }

    /// Whether no place is in the set.
    pub(crate) fn is_none(self) -> bool
        ensures { result ≡ is_none self }
    {
        self.bits == 0
    }

    /// The lowest place of the set.
    pub(crate) fn lowest(self) -> Option<Place>
        ensures value { result ≡ lowest self }
        ensures words { Lowest self result }
    {
        if self.is_none() {
            None
        } else {
            Some(Place {
                number: self.bits.trailing_zeros() as u8,
            })
        }
    }
}
