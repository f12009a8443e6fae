ghost use Rattle.std.specs.Prelude.{◌≡◌};
ghost use Rattle.catalogue.specs.Meanings.{rank_or_2};
ghost use Rattle.catalogue.specs.Refusals.{numbered};
ghost use Rattle.binary32.specs.Patterns.{read as Read, write as Write};

use crate::readings::{BEYOND, Reading, signed};
use catalogue::types::Refusal;

/// The bit of a pattern that says that its rank is negative.
const SIGN_BIT: u32 = 0x8000_0000;

// No `TryFrom`: patterns and ranks are plain numbers, which have conversions of their own.

/// The rank of a pattern, unless it is an infinity or a NaN.
pub(crate) fn read(pattern: u32) -> Result<i32, Refusal>
    ensures { numbered result ≡ rank_or_2 (Read pattern) }
{
    let magnitude = pattern % SIGN_BIT;
    if magnitude < BEYOND {
        Ok(signed(pattern >= SIGN_BIT, magnitude))
    } else {
        Err(Refusal::NotAReading)
    }
}

/// The pattern by which a rank is written.
pub(crate) fn write(rank: i32) -> u32
    ensures { result ≡ Write rank }
{
    let reading = Reading::nearest(rank);
    if reading.is_negative() {
        SIGN_BIT + reading.magnitude()
    } else {
        reading.magnitude()
    }
}
