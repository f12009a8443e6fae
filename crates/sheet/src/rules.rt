ghost use Rattle.std.specs.Prelude.{◌≡◌, Some};
ghost use Rattle.catalogue.specs.Ranges.{meet};
ghost use Rattle.sheet.specs.Rules.{cut, cuts, narrowed_table, ranges_of, rest_or_open, step, table_at_limits, table_in_limits, table_left, table_or_void, table_with_due, table_with_range, void_table};

use crate::lines::{CheckedLine, Line};
use crate::places::{Place, Places};
use crate::registers::Register;
use crate::table::{Empty, State, Table};
use catalogue::interface::Catalogue;
use catalogue::types::{Range, Triple};

impl Table {
    /// Open if a line is due, settled if none is.
    pub(crate) fn rest(&mut self)
        ensures { self.new ≡ rest_or_open self.old }
    {
        self.state = if self.due.is_none() {
            State::Settled
        } else {
            State::Open
        };
    }

    /// Void: nothing is due, and no range is kept.
    pub(crate) fn make_void(&mut self)
        ensures { self.new ≡ void_table self.old }
    {
        let limits = self.limits;
        self.ranges = limits;
        self.due = Places::none();
        self.state = State::Void;
    }

    /// At rest or open with what is left, or void where nothing is.
    fn conclude(&mut self, outcome: Result<(), Empty>)
        ensures { self.new ≡ table_or_void self.old (table_left self.old outcome) }
    {
        match outcome {
            Ok(()) => self.rest(),
            Err(Empty) => self.make_void(),
        }
    }

    /// All ranges return to the limits, and all lines are due.
    pub(crate) fn return_to_limits(&mut self)
        ensures { self.new ≡ table_at_limits self.old }
    {
        let limits = self.limits;
        self.ranges = limits;
        self.due = self.lines.standing();
        self.rest();
    }

    /// A register's range becomes another, and the lines that name the register become due.
    fn change(&mut self, register: Register, new: Range)
        ensures { self.new ≡ table_with_range register new self.old }
    {
        self.ranges[register.index()] = new;
        self.due = self.due.union(self.lines.naming(register));
    }

    /// Cuts a register's range to what it has in common with another.
    fn cut(&mut self, register: Register, by: Range) -> Result<(), Empty>
        ensures void { void_table self.new ≡ void_table self.old }
        ensures after { cut register by self.old ≡ table_left self.new result }
    {
        let old = self.ranges[register.index()];
        let new = old.meet(by);
        if new.is_empty() {
            return Err(Empty);
        }
        if new.is_smaller_than(old) {
            self.change(register, new);
        }
        Ok(())
    }

    /// Cuts a register's range to its limits; the table then rests, is open or is void.
    pub(crate) fn cut_to_limits(&mut self, register: Register)
        ensures { self.new ≡ table_in_limits register self.old }
    {
        let limits = self.limits[register.index()];
        let left = self.cut(register, limits);
        self.conclude(left);
    }

    /// The line at a place is due.
    pub(crate) fn make_due(&mut self, place: Place)
        ensures { self.new ≡ table_with_due place self.old }
    {
        self.due = self.due.with(place);
        self.state = State::Open;
    }

    /// Cuts each register of a line to its result.
    fn absorb(&mut self, line: &Line, results: Triple) -> Result<(), Empty>
        ensures void { void_table self.new ≡ void_table self.old }
        ensures after { cuts line.now (Some results) self.old ≡ table_left self.new result }
    {
        self.cut(line.x, results.x)?;
        self.cut(line.y, results.y)?;
        self.cut(line.z, results.z)
    }

    /// The ranges of a line's registers.
    fn given(&self, line: &Line) -> Triple
        ensures { result ≡ ranges_of line.now self.now }
    {
        Triple {
            x: self.ranges[line.x.index()],
            y: self.ranges[line.y.index()],
            z: self.ranges[line.z.index()],
        }
    }

    /// Narrows a line once, from the ranges as they are.
    fn narrow<C: Catalogue>(&mut self, catalogue: &C, line: &Line) -> Result<(), Empty>
        ensures void { void_table self.new ≡ void_table self.old }
        ensures after { narrowed_table (C.meaning catalogue.now) line.now self.old ≡ table_left self.new result }
    {
        let results = catalogue
            .narrow(line.operation, self.given(line))
            .ok_or(Empty)?;
        self.absorb(line, results)
    }

    /// Narrows a checked line; the table then rests, is open or is void.
    fn step_line<C: Catalogue>(&mut self, catalogue: &C, checked: &CheckedLine)
        ensures { self.new ≡ table_or_void self.old (narrowed_table (C.meaning catalogue.now) checked.now.line self.old) }
    {
        let left = self.narrow(catalogue, &checked.line);
        self.conclude(left);
    }

    /// Takes the line at the lowest due place, which stops being due, and narrows it.
    pub(crate) fn step<C: Catalogue>(&mut self, catalogue: &C)
        ensures { self.new ≡ step (C.meaning catalogue.now) self.old }
    {
        let Some(place) = self.due.lowest() else {
            return;
        };
        self.due = self.due.without(place);
        match self.lines.line_at(place) {
            Ok(line) => self.step_line(catalogue, &line),
            Err(_) => self.rest(),
        }
    }
}
