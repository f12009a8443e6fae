ghost use Rattle.std.specs.Prelude.{Some};
ghost use Rattle.sheet.specs.Histories.{Reached};
ghost use Rattle.sheet.specs.Outcomes.{sheet_text};

use crate::table::{State, Table};
use catalogue::interface::Catalogue;
use std::fmt;

/// One board's limits and lines, and the ranges that its registers can have. Whatever becomes of it, some list of calls on
/// a new sheet has led to it: so every sheet that there is keeps what is promised of such lists.
#[derive(Drop)]
pub struct Sheet<C: Catalogue> {
    pub(crate) catalogue: C,
    pub(crate) table: Table,
    pub ghost reached: { ∥ Reached (C.meaning catalogue) table ∥₁ },
}

/// The sheet's state and nothing else, since the ranges of a void sheet are told to nobody.
impl<C: Catalogue> fmt::Debug for Sheet<C> {
    ghost debug_output = { λ s. Some (sheet_text s.table.state) };

    fn fmt<W: fmt::Write>(&self, f: &mut fmt::Formatter<W>) -> fmt::Result {
        f.write_str(match self.table.state {
            State::Settled => "Sheet { state: Settled, .. }",
            State::Open => "Sheet { state: Open, .. }",
            State::Void => "Sheet { state: Void, .. }",
        })
    }
}

/// What a sheet shows. While it stands, nothing changes the sheet.
#[derive(Debug, Drop)]
pub struct Look<'a, C: Catalogue> {
    pub(crate) sheet: &'a Sheet<C>,
}
