ghost use Rattle.std.specs.Prelude.{◌≡◌, ◌<◌};

use crate::REGISTERS;
use catalogue::types::Refusal;
use std::marker::Model;

/// One of a sheet's registers.
#[derive(Clone, Copy, Debug, PartialEq, Eq)]
pub struct Register {
    number: u8,
}

impl Model for Register {
    ghost use Rattle.std.specs.Prelude.{ℕ, ◌<◌};

    ghost Value = { ℕ };

    ghost view = { λ r. r.number };

    ghost use Rattle.sheet.specs.declared.TheConstants.{REGISTERS};

    ghost invariant = { λ r. r.number < REGISTERS };

    ghost inverse = { λ n. record { number = n } };
}

impl Register {
    /// The register's number, as an index.
    pub fn index(self) -> usize
        ensures value { result ≡ self }
        ensures below { result < REGISTERS }
    {
        self.number as usize
    }
}

impl TryFrom<u32> for Register {
    ghost use Rattle.sheet.specs.Numbers.{NamesRegister};

    type Error = Refusal;

    ghost try_from_gives = { NamesRegister };

    fn try_from(number: u32) -> Result<Self, Refusal> {
        if number as usize >= REGISTERS {
            return Err(Refusal::NoSuchRegister);
        }
        Ok(Register {
            number: number as u8,
        })
    }
}

impl From<Register> for u8 {
    ghost from_gives = { λ r n. n ≡ r };

    fn from(register: Register) -> u8 {
        register.number
    }
}
