ghost use Rattle.std.specs.Prelude.{◌≡◌, None, Some, false, is_some, replicate, slice_set};
ghost use Rattle.sheet.specs.Boards.{index_with, index_without, line_answer, line_in, line_or_none, places_naming, places_with_line};
ghost use Rattle.sheet.specs.Lines.{checked_line, drawn_of};

use crate::lines::{CheckedLine, DrawnLine, Line};
use crate::places::{Place, Places};
use crate::registers::Register;
use crate::table::Row;
use crate::{PLACES, REGISTERS};
use catalogue::types::Refusal;
use std::marker::Model;

/// A row of no line: no mode set is in it.
const NO_ROW: Row = Row {
    kind: 0,
    modes: 0,
    x: 0,
    y: 0,
    z: 0,
};

/// The lines of a sheet, by place, with an index from each register to the lines that name it. Contracts see the lines alone.
#[derive(Drop)]
pub struct Board {
    /// Rows, and not optional lines: a struck line keeps its row, and only its mark in `standing` goes.
    rows: [Row; PLACES],
    /// The places where a line stands.
    standing: Places,
    /// For each register, the places of the standing lines that name it.
    naming: [Places; REGISTERS],
}

impl Model for Board {
    ghost use Rattle.std.specs.Prelude.{List, Option};
    ghost use Rattle.sheet.specs.declared.lines.Line.{Line};

    ghost Value = { List (Option Line) };

    ghost use Rattle.sheet.specs.Boards.{Agrees, lines_of};

    ghost view = { λ b. lines_of b.standing b.rows };

    ghost invariant = { λ b. Agrees b.rows b.standing b.naming };
}

/// Notes that the line at a place names a register.
fn name(naming: &mut [Places; REGISTERS], place: Place, register: Register)
    ensures { naming.new ≡ index_with place register naming.old }
{
    naming[register.index()] = naming[register.index()].with(place);
}

/// Notes that the line at a place names a register no longer.
fn unname(naming: &mut [Places; REGISTERS], place: Place, register: Register)
    ensures { naming.new ≡ index_without place register naming.old }
{
    naming[register.index()] = naming[register.index()].without(place);
}

impl Board {
    /// No lines.
    pub(crate) fn new() -> Board
        ensures { result ≡ replicate PLACES None }
    {
        Board {
            rows: [NO_ROW; PLACES],
            standing: Places::none(),
            naming: [Places::none(); REGISTERS],
        }
    }

    /// The row at a place, and where no line stands one that the check declines.
    fn row_at(&self, place: Place) -> Row
        ensures { line_or_none (checked_line (drawn_of result)) ≡ line_in self.now place }
    {
        if self.standing.has(place) {
            self.rows[place.index()]
        } else {
            NO_ROW
        }
    }

    /// The line at a place, made again from its row by the check; an error where none stands. It is no option, and the row
    /// is chosen before the check: the compiler then keeps the line in registers, which saves a tenth of a step.
    #[tactic(auto, using(crate::proofs::Boards::answered))]
    pub(crate) fn line_at(&self, place: Place) -> Result<CheckedLine, Refusal>
        ensures { line_answer result ≡ line_in self.now place }
    {
        DrawnLine::from(self.row_at(place)).check()
    }

    /// Whether a line stands at a place.
    pub(crate) fn has(&self, place: Place) -> bool
        ensures { result ≡ is_some (line_in self.now place) }
    {
        self.standing.has(place)
    }

    /// The places where a line stands.
    pub(crate) fn standing(&self) -> Places
        ensures { result ≡ places_with_line self.now }
    {
        self.standing
    }

    /// The places of the lines that name a register.
    pub(crate) fn naming(&self, register: Register) -> Places
        ensures { result ≡ places_naming register self.now }
    {
        self.naming[register.index()]
    }

    /// Puts a line at a free place.
    pub(crate) fn put(&mut self, place: Place, checked: CheckedLine)
        requires { is_some (line_in self.old place) ≡ false }
        ensures { self.new ≡ slice_set self.old place (Some checked.line) }
    {
        let line = checked.line;
        let Line { x, y, z, .. } = line;
        self.rows[place.index()] = Row::from(line);
        self.standing = self.standing.with(place);
        name(&mut self.naming, place, x);
        name(&mut self.naming, place, y);
        name(&mut self.naming, place, z);
    }

    /// Takes away the line at a place.
    pub(crate) fn remove(&mut self, place: Place)
        ensures { self.new ≡ slice_set self.old place None }
    {
        if let Ok(checked) = self.line_at(place) {
            self.standing = self.standing.without(place);
            unname(&mut self.naming, place, checked.line.x);
            unname(&mut self.naming, place, checked.line.y);
            unname(&mut self.naming, place, checked.line.z);
        }
    }
}
