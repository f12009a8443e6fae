ghost use Rattle.std.specs.Prelude.{◌≡◌, ◌+◌, ◌-◌, ◌*◌, ◌^◌, ◌<◌, ◌≤◌, min as Min};
ghost use Rattle.binary32.specs.Units.{beyond, units};
ghost use Rattle.binary32.specs.Locations.{Drops, LiesAt, joined as Joined, just_off, scale_of, significand_of};

use crate::types::{Location, Rest};

/// `n` with `k` zero bits below it.
fn shifted(n: u64, k: u32) -> u64
    requires place { k < 64 }
    requires room { n * 2 ^ k < 2 ^ 64 }
    ensures { result ≡ n * 2 ^ k }
{
    n << k
}

/// The bits of a fraction, below the exponent field.
const FRACTION_BITS: u32 = 23;

/// One step of the exponent field.
const EXPONENT_STEP: u32 = 1 << FRACTION_BITS;

/// The bits of a significand: the fraction's, and the leading one.
const SIGNIFICAND_BITS: u32 = FRACTION_BITS + 1;

/// A magnitude's scale: it is its significand times 2 to the scale, in units.
fn scale(magnitude: u32) -> u32
    ensures { result ≡ scale_of magnitude }
{
    (magnitude >> FRACTION_BITS).saturating_sub(1)
}

/// A magnitude's significand: its fraction, with the leading bit unless it is subnormal.
fn significand(magnitude: u32) -> u32
    ensures value { result ≡ significand_of magnitude }
    ensures bits { result < 2 ^ 24 }
{
    magnitude - scale(magnitude) * EXPONENT_STEP
}

/// The magnitude with a scale and a significand; a significand of 24 bits adds one to the exponent field.
fn magnitude_of(scale: u32, significand: u32) -> u32
    requires scale { scale < 300 }
    requires bits { significand < 2 ^ 24 }
    ensures { result ≡ scale * 2 ^ 23 + significand }
{
    scale * EXPONENT_STEP + significand
}

/// How far a sum of at most 24 bits moves up: to 24 bits, and by its scale at most.
fn room(width: u32, scale: u32) -> u32
    requires { width ≤ 24 }
    ensures { result ≡ Min (24 - width) scale }
{
    (SIGNIFICAND_BITS - width).min(scale)
}

/// What dropped bits make, by half of what the last kept bit counts.
fn rest_dropped(dropped: u64, half: u64) -> Rest
    ensures { Drops dropped half result }
{
    if dropped == 0 {
        Rest::Exact
    } else if dropped < half {
        Rest::BelowMiddle
    } else if dropped == half {
        Rest::Middle
    } else {
        Rest::AboveMiddle
    }
}

/// Where `sum` times 2 to the scale lies.
fn locate_scaled(sum: u64, scale: u32) -> Location
    requires { scale < 254 }
    ensures { LiesAt (sum * 2 ^ scale) result }
{
    if sum == 0 {
        return Location {
            rank: 0,
            rest: Rest::Exact,
        };
    }
    let width = 64 - sum.leading_zeros();
    if width <= SIGNIFICAND_BITS {
        let up = room(width, scale);
        Location {
            rank: magnitude_of(scale - up, shifted(sum, up) as u32),
            rest: Rest::Exact,
        }
    } else {
        let dropped = width - SIGNIFICAND_BITS;
        let kept = sum >> dropped;
        Location {
            rank: magnitude_of(scale + dropped, kept as u32),
            rest: rest_dropped(sum - shifted(kept, dropped), shifted(1, dropped - 1)),
        }
    }
}

/// Up to this distance of scales both significands, aligned, fit 64 bits. Beyond it the smaller magnitude is far below a
/// quarter of the larger one's last bit, so that it only tells the side.
const FAR: u32 = 39;

/// Just above a magnitude, or just below it.
fn beside(magnitude: u32, above: bool) -> Location
    requires { 0 < magnitude }
    ensures { result ≡ just_off above magnitude }
{
    if above {
        Location {
            rank: magnitude,
            rest: Rest::BelowMiddle,
        }
    } else {
        Location {
            rank: magnitude - 1,
            rest: Rest::AboveMiddle,
        }
    }
}

/// Where the sum or difference of two magnitudes lies whose scales are far apart.
fn locate_far(big: u32, small: u32, like: bool) -> Location
    requires { scale_of small + 39 < scale_of big }
    ensures { LiesAt (Joined like (units big) (units small)) result }
{
    if small == 0 {
        Location {
            rank: big,
            rest: Rest::Exact,
        }
    } else {
        beside(big, like)
    }
}

/// The sum or difference of two significands, exact in units of the smaller one's last bit.
fn aligned(high: u64, low: u64, like: bool) -> u64
    requires fits { high + low < 2 ^ 64 }
    requires order { low ≤ high }
    ensures { result ≡ Joined like high low }
{
    if like { high + low } else { high - low }
}

/// Where the sum of two magnitudes lies or, where their signs are not alike, their difference. A flag and no enum, here and
/// above: whether two signs are alike decides it.
pub(crate) fn locate(big: u32, small: u32, like: bool) -> Location
    requires reading { big < beyond }
    requires order { small ≤ big }
    ensures { LiesAt (Joined like (units big) (units small)) result }
{
    let base = scale(small);
    let distance = scale(big) - base;
    if distance > FAR {
        return locate_far(big, small, like);
    }
    let high = shifted(significand(big) as u64, distance);
    let low = significand(small) as u64;
    locate_scaled(aligned(high, low, like), base)
}
