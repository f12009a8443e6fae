use crate::types::Refusal;

/// The number by which users know a refusal.
impl From<Refusal> for u8 {
    ghost use Rattle.std.specs.Prelude.{◌≡◌};
    ghost use Rattle.catalogue.specs.Refusals.{refusal_number};

    ghost from_gives = { λ r n. n ≡ refusal_number r };

    fn from(refusal: Refusal) -> u8 {
        match refusal {
            Refusal::NoSuchRegister => 1,
            Refusal::NotAReading => 2,
            Refusal::LowAboveHigh => 3,
            Refusal::NoSuchKind => 4,
            Refusal::NoSuchModes => 5,
            Refusal::PlaceTaken => 6,
            Refusal::NoLineThere => 7,
            Refusal::BudgetOutOfRange => 8,
            Refusal::SheetVoid => 9,
            Refusal::Unreadable => 10,
        }
    }
}
