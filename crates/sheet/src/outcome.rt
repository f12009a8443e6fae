ghost use Rattle.std.specs.Prelude.{◌≡◌, Some};
ghost use Rattle.sheet.specs.Calls.{outcome_number};
ghost use Rattle.sheet.specs.Outcomes.{outcome_text};

use crate::table::Outcome;
use std::fmt;

impl Outcome {
    /// The word for it.
    pub fn name(self) -> &'static str
        ensures { result.now ≡ outcome_text (outcome_number self) }
    {
        match self {
            Outcome::Settled => "settled",
            Outcome::Stopped => "stopped",
            Outcome::Void => "void",
        }
    }
}

impl fmt::Display for Outcome {
    ghost output = { λ o. Some (outcome_text (outcome_number o)) };

    fn fmt<W: fmt::Write>(&self, f: &mut fmt::Formatter<W>) -> fmt::Result {
        f.write_str(self.name())
    }
}
