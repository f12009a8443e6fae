ghost use Rattle.std.specs.Prelude.{◌≡◌, false, is_some};
ghost use Rattle.sheet.specs.Boards.{line_in};
ghost use Rattle.sheet.specs.Rules.{at_rest, limit_event, reaction, settling, table_after_enter, table_after_limit, table_after_strike};

use crate::lines::CheckedLine;
use crate::places::Place;
use crate::registers::Register;
use crate::table::{Event, State, Table};
use catalogue::interface::Catalogue;
use catalogue::types::Range;

impl State {
    /// Whether no step changes a table in the state.
    fn is_at_rest(self) -> bool
        ensures { result ≡ at_rest self }
    {
        matches!(self, State::Settled | State::Void)
    }
}

impl Table {
    /// What the table makes of an event in the state that it is in: one match of both, as the rules' table has them.
    fn react<C: Catalogue>(&mut self, catalogue: &C, event: Event)
        ensures { self.new ≡ reaction (C.meaning catalogue.now) self.old.state event self.old }
    {
        // The event is lent, since the proof reads nothing out of an event that a tuple holds itself.
        match (self.state, &event) {
            (State::Void, Event::Tightened(_) | Event::Entered(_) | Event::Step) => {}
            (State::Settled, Event::Step) => {}
            (State::Open, Event::Step) => self.step(catalogue),
            (_, Event::Tightened(register)) => self.cut_to_limits(*register),
            (_, Event::Entered(place)) => self.make_due(*place),
            (_, Event::Loosened | Event::Struck) => self.return_to_limits(),
        }
    }

    /// Which event new limits of a register are.
    fn limit_event(&self, register: Register, limits: Range) -> Event
        ensures { result ≡ limit_event register limits self.now }
    {
        if self.limits[register.index()].holds_all(limits) {
            Event::Tightened(register)
        } else {
            Event::Loosened
        }
    }

    /// Replaces a register's limits.
    pub(crate) fn limit<C: Catalogue>(&mut self, catalogue: &C, register: Register, limits: Range)
        ensures { self.new ≡ table_after_limit (C.meaning catalogue.now) register limits self.old }
    {
        let event = self.limit_event(register, limits);
        self.limits[register.index()] = limits;
        self.react(catalogue, event);
    }

    /// Enters a checked line at a free place.
    pub(crate) fn enter<C: Catalogue>(&mut self, catalogue: &C, place: Place, checked: CheckedLine)
        requires { is_some (line_in self.old.lines place) ≡ false }
        ensures { self.new ≡ table_after_enter (C.meaning catalogue.now) place checked.line self.old }
    {
        self.lines.put(place, checked);
        self.react(catalogue, Event::Entered(place));
    }

    /// Strikes the line at a place.
    pub(crate) fn strike<C: Catalogue>(&mut self, catalogue: &C, place: Place)
        ensures { self.new ≡ table_after_strike (C.meaning catalogue.now) place self.old }
    {
        self.lines.remove(place);
        self.react(catalogue, Event::Struck);
    }

    /// Steps until rest, or until the budget is spent; answers how many steps were made.
    #[tactic(auto, using(crate::proofs::Settles::settled_turn))]
    pub(crate) fn settle<C: Catalogue>(&mut self, catalogue: &C, budget: u32) -> u32
        ensures { settling (C.meaning catalogue.now) budget self.old ≡ record { table = self.new; steps = result } }
    {
        for made in 0..budget {
            if self.state.is_at_rest() {
                return made;
            }
            self.react(catalogue, Event::Step);
        }
        budget
    }
}
