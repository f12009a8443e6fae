ghost use Rattle.std.specs.Prelude.{◌≡◌, ◌&&◌};
ghost use Rattle.catalogue.specs.Ranges.{holds};
ghost use Rattle.catalogue.specs.Operations.{allowed};
ghost use Rattle.catalogue.specs.Partners.{SomeOf, partner_by, partner_in, partnered, toward_z};

use crate::arithmetic::Arithmetic;
use crate::constraint::Constraint;
use crate::non_empty::NonEmpty;
use crate::types::{Asks, Kind, Mode, Modes, Operand, Operation, Question, Range};

impl Kind {
    /// Which side of z results reach as y grows.
    fn toward_z(self) -> Asks
        ensures { result ≡ toward_z self }
    {
        if self.falls_in_y() {
            Asks::AtMost
        } else {
            Asks::AtLeast
        }
    }
}

/// Whether two ranks lie in a range.
fn both_in(range: Range, x: i32, z: i32) -> bool
    ensures { result ≡ (holds range x && holds range z) }
{
    range.holds(x) && range.holds(z)
}

impl<A: Arithmetic> Constraint<'_, A> {
    /// The first y of a range whose result under one mode is z, if the set has that mode.
    fn partner_by(&self, x: i32, z: i32, y: NonEmpty, mode: Mode) -> Option<i32>
        ensures { result ≡ partner_by (A.arith self.now.arithmetic.now) self.now.operation.kind self.now.operation.modes x z y mode }
    {
        if !self.operation.modes.has(mode) {
            return None;
        }
        // One mode of the set: a value that is written where it is used, here and in `round` of binary32.
        let operation = Operation {
            kind: self.operation.kind,
            modes: Modes::only(mode),
        };
        let toward = Question {
            operation,
            operand: Operand::Y,
            other: x,
            asks: operation.kind.toward_z(),
            bound: z,
        };
        let v = toward.edge(self.arithmetic, y)?;
        let result = self.arithmetic.span(operation, x, v).least;
        (result == z).then_some(v)
    }

    /// A partner in a range of readings: the first that is found, mode by mode.
    fn partner_in(&self, x: i32, z: i32, y: Option<NonEmpty>) -> Option<i32>
        ensures { result ≡ partner_in (A.arith self.now.arithmetic.now) self.now.operation.kind self.now.operation.modes x z y }
    {
        let y = y?;
        // One by one, so that no search is made once one is found. What a closure for `or_else` answers is not known here,
        // where the arithmetic is any; with `find_map` over the modes the proof did not close either.
        if let Some(v) = self.partner_by(x, z, y, Mode::Nearest) {
            return Some(v);
        }
        if let Some(v) = self.partner_by(x, z, y, Mode::Up) {
            return Some(v);
        }
        if let Some(v) = self.partner_by(x, z, y, Mode::Down) {
            return Some(v);
        }
        self.partner_by(x, z, y, Mode::TowardZero)
    }

    /// A partner in any range; only readings x and z have one.
    fn partner(&self, x: i32, z: i32, y: Range) -> Option<i32>
        ensures { result ≡ partnered (A.arith self.now.arithmetic.now) self.now.operation.kind self.now.operation.modes x z y }
    {
        let readings = self.readings();
        if both_in(readings, x, z) {
            self.partner_in(x, z, readings.meet(y).unless_empty())
        } else {
            None
        }
    }
}

/// Some y of a range that makes an allowed triple with x and z, or none if there is none.
pub fn partner<A: Arithmetic>(
    arithmetic: &A,
    operation: Operation,
    x: i32,
    z: i32,
    y: Range,
) -> Option<i32>
    ensures value { result ≡ partnered (A.arith arithmetic.now) operation.kind operation.modes x z y }
    ensures words { SomeOf y (λ v. allowed (A.arith arithmetic.now) operation.kind operation.modes x v z) result }
{
    Constraint {
        arithmetic,
        operation,
    }
    .partner(x, z, y)
}
