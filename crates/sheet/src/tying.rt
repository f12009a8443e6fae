ghost use Rattle.std.specs.Prelude.{◌≡◌, Ok, OnErr, OnOk};
ghost use Rattle.catalogue.specs.Refusals.{numbered};
ghost use Rattle.sheet.specs.Calls.{drawn_asked, drawn_table};
ghost use Rattle.sheet.specs.Histories.{called, enter};
ghost use Rattle.sheet.specs.Lines.{checked_line};
ghost use Rattle.sheet.specs.Words.{IsEnter};
ghost use Rattle.sheet.specs.declared.lines.Line.{Line};

use crate::lines::DrawnLine;
use crate::sheet::Sheet;
use catalogue::interface::Catalogue;
use catalogue::types::Refusal;

impl<C: Catalogue> Sheet<C> {
    /// Checks a drawn line and enters it at a free place.
    pub fn tie(&mut self, place: u32, drawn: DrawnLine) -> Result<(), Refusal>
        ensures answer { numbered result ≡ drawn_asked place (checked_line drawn) self.old.table }
        ensures call { (l : Line) → checked_line drawn ≡ Ok l → self.new.table ≡ called (C.meaning self.old.catalogue) (enter place l) self.old.table }
        ensures refused { OnErr result (self.new.table ≡ self.old.table) }
        ensures words { OnOk result ((l : Line) × ((checked_line drawn ≡ Ok l) × IsEnter place l self.old.table self.new.table)) }
        ensures table { self.new.table ≡ drawn_table (C.meaning self.old.catalogue) place (checked_line drawn) self.old.table }
        ensures catalogue { self.new.catalogue ≡ self.old.catalogue }
    {
        let line = drawn.check()?;
        self.enter(place, line).map_err(|(refusal, _line)| refusal)
    }
}
