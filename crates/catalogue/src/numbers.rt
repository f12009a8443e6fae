use crate::types::{Kind, Modes, Refusal};

impl TryFrom<u32> for Kind {
    ghost use Rattle.catalogue.specs.Numbers.{NamesKind};

    type Error = Refusal;

    ghost try_from_gives = { NamesKind };

    fn try_from(number: u32) -> Result<Self, Refusal> {
        match number {
            0 => Ok(Kind::Sum),
            1 => Ok(Kind::Difference),
            2 => Ok(Kind::Peak),
            _ => Err(Refusal::NoSuchKind),
        }
    }
}

impl From<Kind> for u8 {
    ghost use Rattle.std.specs.Prelude.{◌≡◌};
    ghost use Rattle.catalogue.specs.Numbers.{kind_number};

    ghost from_gives = { λ k n. n ≡ kind_number k };

    fn from(kind: Kind) -> u8 {
        match kind {
            Kind::Sum => 0,
            Kind::Difference => 1,
            Kind::Peak => 2,
        }
    }
}

/// A set of one mode at least, and of no other than the four.
impl TryFrom<u32> for Modes {
    ghost use Rattle.catalogue.specs.Numbers.{NamesModes};

    type Error = Refusal;

    ghost try_from_gives = { NamesModes };

    fn try_from(number: u32) -> Result<Self, Refusal> {
        if number == 0 || number > 15 {
            return Err(Refusal::NoSuchModes);
        }
        Ok(Modes { bits: number as u8 })
    }
}
