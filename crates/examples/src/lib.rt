//! Worked examples of the definitions, small enough to be checked by hand.

#![tactic(auto)]

ghost use Rattle.examples.specs.Worked.{Worked};
ghost use Rattle.std.specs.Prelude.{◌≡◌};
ghost use Rattle.catalogue.specs.Operations.{readings};
ghost use Rattle.binary32.specs.Binary32.{binary32 as Arithmetic32};
ghost use Rattle.counters.specs.Stopping.{stopping};

use binary32::binary32::Binary32;
use catalogue::interface::Catalogue;
use catalogue::types::Range;
use counters::counter::Counter;

/// How many worked examples there are; the contract proves each of them of the definitions.
pub fn worked_examples() -> u32
    ensures list { Worked }
    ensures count { result ≡ 59 }
{
    59
}

/// The readings of binary32 by the constants of `Catalogue`, which no clause can cite.
pub fn binary32_readings() -> Range
    ensures { result ≡ readings Arithmetic32 }
{
    Range {
        low: <Binary32 as Catalogue>::LEAST,
        high: <Binary32 as Catalogue>::GREATEST,
    }
}

/// The readings of the counter by the constants of `Catalogue`.
pub fn counter_readings() -> Range
    ensures { result ≡ readings (stopping 16777215) }
{
    Range {
        low: <Counter as Catalogue>::LEAST,
        high: <Counter as Catalogue>::GREATEST,
    }
}
