ghost use Rattle.std.specs.Prelude.{◌≡◌};
ghost use Rattle.catalogue.specs.Modes.{first_mode, has_mode, only as Only};

use crate::types::{Mode, Modes};

impl Modes {
    /// Whether the set has a mode.
    pub fn has(self, mode: Mode) -> bool
        ensures { result ≡ has_mode self mode }
    {
        match mode {
            Mode::Nearest => self.bits % 2 == 1,
            Mode::Up => self.bits / 2 % 2 == 1,
            Mode::Down => self.bits / 4 % 2 == 1,
            Mode::TowardZero => self.bits / 8 % 2 == 1,
        }
    }

    /// The set's first mode, in the order above; toward zero for a set with none. With `find` over the modes in place of
    /// the chain the proof did not close.
    pub fn first(self) -> Mode
        ensures { result ≡ first_mode self }
    {
        if self.has(Mode::Nearest) {
            Mode::Nearest
        } else if self.has(Mode::Up) {
            Mode::Up
        } else if self.has(Mode::Down) {
            Mode::Down
        } else {
            Mode::TowardZero
        }
    }

    /// The set of one mode alone. A name and no `From`, since it says that no other is in it.
    pub fn only(mode: Mode) -> Modes
        ensures { result ≡ Only mode }
    {
        match mode {
            Mode::Nearest => Modes { bits: 1 },
            Mode::Up => Modes { bits: 2 },
            Mode::Down => Modes { bits: 4 },
            Mode::TowardZero => Modes { bits: 8 },
        }
    }
}
