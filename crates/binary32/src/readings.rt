ghost use Rattle.std.specs.Prelude.{◌≡◌, ◌^◌, ◌<◌, ℤ, neg_ℤ, unsigned_abs};
ghost use Rattle.std.specs.Int.{is_negative as IsNegative};
ghost use Rattle.catalogue.specs.Operations.{nearest_reading};
ghost use Rattle.binary32.specs.Units.{Reading as IsReading, beyond, with_sign};
ghost use Rattle.binary32.specs.Binary32.{binary32 as Arithmetic32};

use std::marker::Model;
use std::ops::Neg;

/// The largest reading's magnitude, and the first magnitude past the readings.
pub(crate) const LARGEST: u32 = 2_139_095_039;

pub(crate) const BEYOND: u32 = LARGEST + 1;

/// The greatest and the least reading.
pub(crate) const GREATEST: i32 = LARGEST as i32;

pub(crate) const LEAST: i32 = -GREATEST;

/// A rank that is a reading.
#[derive(Clone, Copy, Debug, PartialEq, Eq)]
pub(crate) struct Reading {
    rank: i32,
}

impl Model for Reading {
    ghost Value = { ℤ };

    ghost view = { λ r. r.rank };

    ghost invariant = { λ r. IsReading r.rank };

    ghost inverse = { λ v. record { rank = v } };
}

impl Reading {
    /// The reading nearest to a rank.
    pub(crate) fn nearest(rank: i32) -> Reading
        ensures { result ≡ nearest_reading Arithmetic32 rank }
    {
        Reading {
            rank: rank.clamp(LEAST, GREATEST),
        }
    }

    pub(crate) fn rank(self) -> i32
        ensures { result ≡ self }
    {
        self.rank
    }

    pub(crate) fn is_negative(self) -> bool
        ensures { result ≡ IsNegative self }
    {
        self.rank < 0
    }

    /// The rank without its sign.
    pub(crate) fn magnitude(self) -> u32
        ensures value { result ≡ unsigned_abs self }
        ensures reading { result < beyond }
    {
        self.rank.unsigned_abs()
    }
}

impl Neg for Reading {
    type Output = Reading;

    ghost neg_gives = { λ x r. r ≡ neg_ℤ x };

    fn neg(self) -> Reading {
        Reading { rank: -self.rank }
    }
}

/// The rank with a sign and a magnitude.
pub(crate) fn signed(negative: bool, magnitude: u32) -> i32
    requires { magnitude < 2 ^ 31 }
    ensures { result ≡ with_sign negative magnitude }
{
    if negative {
        -(magnitude as i32)
    } else {
        magnitude as i32
    }
}
