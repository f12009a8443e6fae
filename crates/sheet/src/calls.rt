ghost use Rattle.std.specs.Prelude.{◌≡◌, ◌≢◌, ◌↔◌, ◌<◌, ◌≤◌, ℤ, IfOk, IfSome, IsTrue, List, OnErr, OnOk};
ghost use Rattle.catalogue.specs.Refusals.{numbered};
ghost use Rattle.sheet.specs.declared.lines.Line.{Line};
ghost use Rattle.sheet.specs.Calls.{NamesLine, bad_budget, done, enter_answer, enter_asked, enter_table, in_patterns, is_settled, limit_asked, limit_table, limits_asked, limits_read, line_asked, look_answer, outcome_number, outcome_of, partner_asked, partner_named, pattern_or_none, ranks_read, settle_answer, settle_asked, settle_table, shown_range, strike_asked, strike_table};
ghost use Rattle.sheet.specs.Histories.{Call, after, called, enter, limit, limits_of, line_of, settle, strike};
ghost use Rattle.sheet.specs.Lines.{checked_line, drawn_of, row_of};
ghost use Rattle.sheet.specs.Rules.{new_table, table_of};
ghost use Rattle.sheet.specs.Words.{Ended, IsEnter, IsPartnerAnswer, IsSettle, IsStrike, SetsLimits};

use crate::board::Board;
use crate::lines::{CheckedLine, Line};
use crate::places::{Place, Places};
use crate::registers::Register;
use crate::sheet::{Look, Sheet};
use crate::table::{Outcome, State, Table};
use crate::{MOST_STEPS, PLACES, REGISTERS};
use catalogue::interface::Catalogue;
use catalogue::types::{Range, Refusal};

/// How a settle that leaves a state ended.
impl From<State> for Outcome {
    ghost from_gives = { λ s o. outcome_number o ≡ outcome_of s };

    fn from(state: State) -> Outcome {
        match state {
            State::Settled => Outcome::Settled,
            State::Open => Outcome::Stopped,
            State::Void => Outcome::Void,
        }
    }
}

/// Whether a budget is none that a settle takes. No type of its own: a settle alone takes one.
fn is_bad_budget(budget: u32) -> bool
    ensures { result ≡ bad_budget budget }
{
    budget == 0 || budget > MOST_STEPS
}

impl Table {
    /// A table with no lines, and one range for all limits.
    fn new(all: Range) -> Table
        ensures { result ≡ table_of all }
    {
        Table {
            limits: [all; REGISTERS],
            ranges: [all; REGISTERS],
            lines: Board::new(),
            due: Places::none(),
            state: State::Settled,
        }
    }
}

// Calls take any number, and refuse what names nothing by number: none has a precondition.
impl<C: Catalogue> Sheet<C> {
    /// A sheet with no lines, and limits from the least to the greatest reading.
    pub fn new(catalogue: C) -> Self
        ensures table { result.table ≡ new_table (C.meaning catalogue) }
        ensures sizes { (REGISTERS ≡ 32) × (PLACES ≡ 64) × (MOST_STEPS ≡ 65535) }
        ensures catalogue { result.catalogue ≡ catalogue }
    {
        let table = Table::new(catalogue.ends());
        Sheet { catalogue, table }
    }

    /// The range from one pattern to another, or why it is no range of readings.
    fn range_between(&self, low: u32, high: u32) -> Result<Range, Refusal>
        ensures { numbered result ≡ limits_read ((C.meaning self.now.catalogue).reads low) ((C.meaning self.now.catalogue).reads high) }
    {
        let (low, high) = self.ranks(low, high)?;
        if high < low {
            return Err(Refusal::LowAboveHigh);
        }
        Ok(Range { low, high })
    }

    /// Replaces a register's limits by those from one pattern to another.
    pub fn limit(&mut self, register: u32, low: u32, high: u32) -> Result<(), Refusal>
        ensures answer { numbered result ≡ done (limit_asked (C.meaning self.old.catalogue) register low high) }
        ensures table { self.new.table ≡ limit_table (C.meaning self.old.catalogue) register (limit_asked (C.meaning self.old.catalogue) register low high) self.old.table }
        ensures call { self.new.table ≡ called (C.meaning self.old.catalogue) (limit register low high) self.old.table }
        ensures refused { OnErr result (self.new.table ≡ self.old.table) }
        ensures words { OnOk result (SetsLimits (C.meaning self.old.catalogue) register low high self.old.table self.new.table) }
        ensures catalogue { self.new.catalogue ≡ self.old.catalogue }
    {
        let register = Register::try_from(register)?;
        let limits = self.range_between(low, high)?;
        self.table.limit(&self.catalogue, register, limits);
        Ok(())
    }

    /// Enters a checked line at a free place; a refusal hands the line back.
    pub fn enter(&mut self, place: u32, line: CheckedLine) -> Result<(), (Refusal, CheckedLine)>
        ensures answer { enter_answer result ≡ enter_asked place line self.old.table }
        ensures table { self.new.table ≡ enter_table (C.meaning self.old.catalogue) place line self.old.table }
        ensures call { self.new.table ≡ called (C.meaning self.old.catalogue) (enter place line.line) self.old.table }
        ensures refused { OnErr result (self.new.table ≡ self.old.table) }
        ensures words { OnOk result (IsEnter place line.line self.old.table self.new.table) }
        ensures catalogue { self.new.catalogue ≡ self.old.catalogue }
    {
        // No `map_err` with `?`: the line goes back, or on to be entered.
        let place = match Place::try_from(place) {
            Ok(place) => place,
            Err(refusal) => return Err((refusal, line)),
        };
        if self.table.lines.has(place) {
            return Err((Refusal::PlaceTaken, line));
        }
        self.table.enter(&self.catalogue, place, line);
        Ok(())
    }

    /// The place that a number names, if a line stands there.
    fn place_of_line(&self, number: u32) -> Result<Place, Refusal>
        ensures { NamesLine number self.now.table result }
    {
        let place = Place::try_from(number)?;
        let stands = self.table.lines.has(place);
        stands.then_some(place).ok_or(Refusal::NoLineThere)
    }

    /// Removes the line at a place; all ranges return to the limits, and the remaining lines are due.
    pub fn strike(&mut self, place: u32) -> Result<(), Refusal>
        ensures answer { numbered result ≡ strike_asked place self.old.table }
        ensures table { self.new.table ≡ strike_table (C.meaning self.old.catalogue) place self.old.table }
        ensures call { self.new.table ≡ called (C.meaning self.old.catalogue) (strike place) self.old.table }
        ensures refused { OnErr result (self.new.table ≡ self.old.table) }
        ensures words { OnOk result (IsStrike place self.old.table self.new.table) }
        ensures catalogue { self.new.catalogue ≡ self.old.catalogue }
    {
        let place = self.place_of_line(place)?;
        self.table.strike(&self.catalogue, place);
        Ok(())
    }

    /// A register's limits by the patterns of their low and their high end, on a void sheet too.
    pub fn limits(&self, register: u32) -> Result<(u32, u32), Refusal>
        ensures answer { numbered result ≡ in_patterns (C.meaning self.now.catalogue) (limits_asked register self.now.table) }
        ensures words { (h : List Call) → self.now.table ≡ after (C.meaning self.now.catalogue) h → IfOk result (λ told. told ≡ ((C.meaning self.now.catalogue).writes (limits_of (C.meaning self.now.catalogue) h register).low, (C.meaning self.now.catalogue).writes (limits_of (C.meaning self.now.catalogue) h register).high)) }
    {
        let register = Register::try_from(register)?;
        Ok(self.patterns(self.table.limits[register.index()]))
    }

    /// The line that stands at a place, or none.
    pub fn line(&self, place: u32) -> Result<Option<Line>, Refusal>
        ensures answer { numbered result ≡ line_asked place self.now.table }
        ensures words { (h : List Call) → self.now.table ≡ after (C.meaning self.now.catalogue) h → IfOk result (λ told. told ≡ line_of h place) }
        ensures again { IfOk result (λ told. IfSome told (λ l. checked_line (drawn_of (row_of l)) ≡ Ok l)) }
    {
        let place = Place::try_from(place)?;
        let checked = self.table.lines.line_at(place);
        Ok(checked.ok().map(|checked| checked.line))
    }

    /// A range by the patterns of its low and its high end.
    fn patterns(&self, range: Range) -> (u32, u32)
        ensures { result ≡ ((C.meaning self.now.catalogue).writes range.low, (C.meaning self.now.catalogue).writes range.high) }
    {
        (
            self.catalogue.pattern(range.low),
            self.catalogue.pattern(range.high),
        )
    }

    /// The ranks of two patterns.
    fn ranks(&self, x: u32, z: u32) -> Result<(i32, i32), Refusal>
        ensures { numbered result ≡ ranks_read ((C.meaning self.now.catalogue).reads x) ((C.meaning self.now.catalogue).reads z) }
    {
        Ok((self.catalogue.rank(x)?, self.catalogue.rank(z)?))
    }

    /// Some y in the shown range of a line's y that makes an allowed triple with the patterns x and z, or none.
    pub fn partner(&self, place: u32, x: u32, z: u32) -> Result<Option<u32>, Refusal>
        ensures answer { numbered result ≡ partner_asked (C.meaning self.now.catalogue) place x z self.now.table }
        ensures words { (h : List Call) (l : Line) (a c : ℤ) → self.now.table ≡ after (C.meaning self.now.catalogue) h → line_of h place ≡ Some l → (C.meaning self.now.catalogue).reads x ≡ Some a → (C.meaning self.now.catalogue).reads z ≡ Some c → self.now.table.state ≢ State.Void → IsPartnerAnswer (C.meaning self.now.catalogue) l a c self.now.table result }
    {
        let place = Place::try_from(place)?;
        let lines = &self.table.lines;
        let line = lines.line_at(place).map_err(|_| Refusal::NoLineThere)?;
        let (x, z) = self.ranks(x, z)?;
        let look = self.look()?;
        Ok(look.partner_of(&line, x, z))
    }

    /// Steps until rest or until the budget is spent: how it ended, and how many steps were made.
    pub fn settle(&mut self, budget: u32) -> Result<(Outcome, u32), Refusal>
        ensures answer { settle_answer result ≡ settle_asked (C.meaning self.old.catalogue) budget self.old.table }
        ensures table { self.new.table ≡ settle_table (C.meaning self.old.catalogue) budget self.old.table }
        ensures call { self.new.table ≡ called (C.meaning self.old.catalogue) (settle budget) self.old.table }
        ensures refused { OnErr result (self.new.table ≡ self.old.table) }
        ensures budget { OnOk result ((0 < budget) × (budget ≤ MOST_STEPS)) }
        ensures outcome { IfOk result (λ done. Ended done.0 self.new.table) }
        ensures words { IfOk result (λ done. IsSettle (C.meaning self.old.catalogue) budget done.1 self.old.table self.new.table) }
        ensures catalogue { self.new.catalogue ≡ self.old.catalogue }
    {
        if is_bad_budget(budget) {
            return Err(Refusal::BudgetOutOfRange);
        }
        let steps = self.table.settle(&self.catalogue, budget);
        Ok((Outcome::from(self.table.state), steps))
    }

    /// A look at the sheet, which shows nothing while it is void.
    pub fn look(&self) -> Result<Look<'_, C>, Refusal>
        ensures { look_answer result (λ l. l.sheet.now ≡ self.now) self.now.table.state }
    {
        match self.table.state {
            State::Void => Err(Refusal::SheetVoid),
            State::Settled | State::Open => Ok(Look { sheet: self }),
        }
    }
}

impl<C: Catalogue> Look<'_, C> {
    /// A register's range.
    pub fn range(&self, register: u32) -> Result<Range, Refusal>
        ensures { numbered result ≡ shown_range register self.now.sheet.now.table }
    {
        let register = Register::try_from(register)?;
        Ok(self.sheet.table.ranges[register.index()])
    }

    /// A register's range by the patterns of its low and its high end.
    pub fn patterns(&self, register: u32) -> Result<(u32, u32), Refusal>
        ensures { numbered result ≡ in_patterns (C.meaning self.now.sheet.now.catalogue) (shown_range register self.now.sheet.now.table) }
    {
        Ok(self.sheet.patterns(self.range(register)?))
    }

    /// Whether the sheet is settled.
    pub fn is_settled(&self) -> bool
        ensures value { result ≡ is_settled self.now.sheet.now.table.state }
        ensures words { IsTrue result ↔ (self.now.sheet.now.table.state ≡ State.Settled) }
    {
        matches!(self.sheet.table.state, State::Settled)
    }

    /// Whether another look shows the same: both sheets are settled, or both are open, with the same range at every register.
    pub fn shows_same(&self, other: &Look<'_, C>) -> bool
        ensures { IsTrue result ↔ ((is_settled self.now.sheet.now.table.state ≡ is_settled other.now.sheet.now.table.state) × (self.now.sheet.now.table.ranges ≡ other.now.sheet.now.table.ranges)) }
    {
        self.is_settled() == other.is_settled()
            && self.sheet.table.ranges == other.sheet.table.ranges
    }

    /// Some y of a line's shown range that makes an allowed triple with x and z, as a pattern.
    fn partner_of(&self, checked: &CheckedLine, x: i32, z: i32) -> Option<u32>
        ensures { result ≡ pattern_or_none (C.meaning self.now.sheet.now.catalogue) (partner_named (C.meaning self.now.sheet.now.catalogue) checked.now.line (x, z) self.now.sheet.now.table) }
    {
        let line = checked.line;
        let y = self.sheet.table.ranges[line.y.index()];
        self.sheet
            .catalogue
            .partner(line.operation, x, z, y)
            .map(|rank| self.sheet.catalogue.pattern(rank))
    }
}
