ghost use Rattle.std.specs.Prelude.{◌≡◌, Some};
ghost use Rattle.catalogue.specs.Ranges.{all_three, meet, unless_empty};
ghost use Rattle.catalogue.specs.Operations.{falls_in_y, readings, span_of};
ghost use Rattle.catalogue.specs.Narrowing.{Narrowing, y_for_greatest, y_for_least};
ghost use Rattle.catalogue.specs.Search.{between as Between, kept as Kept, narrowed, narrowed_readings, keeps_x, keeps_y, keeps_z, reaches, results as Results, stays_in};
ghost use Rattle.catalogue.specs.Given.{triple_of};
ghost use Rattle.catalogue.specs.Whole.{reaches_into, span_at_high, span_at_low};

use crate::arithmetic::Arithmetic;
use crate::constraint::Constraint;
use crate::non_empty::NonEmpty;
use crate::types::{Asks, Kind, Operand, Operation, Question, Range, Span, Triple};

impl Kind {
    /// Whether results fall, and do not rise, as y grows.
    pub(crate) fn falls_in_y(self) -> bool
        ensures { result ≡ falls_in_y self }
    {
        match self {
            Kind::Difference => true,
            Kind::Sum | Kind::Peak => false,
        }
    }

    /// The rank of y's range that makes results least. `y_for_greatest` beside it is the other end: two short functions
    /// say which is meant where one with a flag would not.
    fn y_for_least(self, y: NonEmpty) -> i32
        ensures { result ≡ y_for_least self y }
    {
        y.end(self.falls_in_y())
    }

    /// The rank of y's range that makes results greatest.
    fn y_for_greatest(self, y: NonEmpty) -> i32
        ensures { result ≡ y_for_greatest self y }
    {
        y.end(!self.falls_in_y())
    }
}

impl Span {
    /// Whether the span has a rank in common with a range.
    fn reaches_into(self, range: Range) -> bool
        ensures { result ≡ reaches_into self range }
    {
        range.low <= self.greatest && self.least <= range.high
    }
}

impl Question {
    /// The question whether the greatest result reaches z's low. `stays_in` beside it asks of the other end; each has the
    /// name of its definition.
    fn reaches(operation: Operation, operand: Operand, other: i32, z: NonEmpty) -> Question
        ensures { result ≡ reaches operation.kind operation.modes operand other z }
    {
        Question {
            operation,
            operand,
            other,
            asks: Asks::AtLeast,
            bound: z.low(),
        }
    }

    /// The question whether the least result does not pass z's high.
    fn stays_in(operation: Operation, operand: Operand, other: i32, z: NonEmpty) -> Question
        ensures { result ≡ stays_in operation.kind operation.modes operand other z }
    {
        Question {
            operation,
            operand,
            other,
            asks: Asks::AtMost,
            bound: z.high(),
        }
    }
}

/// Three given ranges of readings, cut and not empty.
#[derive(Clone, Copy)]
struct Given {
    x: NonEmpty,
    y: NonEmpty,
    z: NonEmpty,
}

/// The range between two ends, unless one is missing or it is empty.
fn between(low: Option<i32>, high: Option<i32>) -> Option<NonEmpty>
    ensures { result ≡ Between low high }
{
    Range {
        low: low?,
        high: high?,
    }
    .unless_empty()
}

/// All of x and y, and what z keeps of the results.
fn whole(x: Range, y: Range, z: Range, results: Range) -> Option<Triple>
    ensures { result ≡ all_three (Some x) (Some y) (unless_empty (meet z results)) }
{
    let z = z.meet(results).unless_empty()?.range();
    Some(Triple { x, y, z })
}

impl<A: Arithmetic> Constraint<'_, A> {
    /// The readings of the arithmetic.
    pub(crate) fn readings(&self) -> Range
        ensures { result ≡ readings (A.arith self.now.arithmetic.now) }
    {
        self.arithmetic.readings()
    }

    /// The least and the greatest result for two ranks.
    pub(crate) fn span(&self, x: i32, y: i32) -> Span
        ensures { result ≡ span_of (A.arith self.now.arithmetic.now) self.now.operation.kind self.now.operation.modes x y }
    {
        self.arithmetic.span(self.operation, x, y)
    }

    /// The results that two ranges can have.
    fn results(&self, x: NonEmpty, y: NonEmpty) -> Range
        ensures { result ≡ Results (A.arith self.now.arithmetic.now) self.now.operation.kind self.now.operation.modes x y }
    {
        let kind = self.operation.kind;
        Range {
            low: self.span(x.low(), kind.y_for_least(y)).least,
            high: self.span(x.high(), kind.y_for_greatest(y)).greatest,
        }
    }

    /// The results for x's low end and the end of y's range that suits it best. `span_at_high` beside it is its mirror;
    /// each has the name of its definition.
    fn span_at_low(&self, x: NonEmpty, y: NonEmpty) -> Span
        ensures { result ≡ span_at_low (A.arith self.now.arithmetic.now) self.now.operation.kind self.now.operation.modes x y }
    {
        self.span(x.low(), self.operation.kind.y_for_greatest(y))
    }

    /// The results for x's high end and the end of y's range that suits it best.
    fn span_at_high(&self, x: NonEmpty, y: NonEmpty) -> Span
        ensures { result ≡ span_at_high (A.arith self.now.arithmetic.now) self.now.operation.kind self.now.operation.modes x y }
    {
        self.span(x.high(), self.operation.kind.y_for_least(y))
    }

    /// What an operand keeps of its range: the ranks whose greatest result with `for_greatest` reaches z's low, and
    /// whose least result with `for_least` does not pass z's high.
    fn kept(
        &self,
        operand: Operand,
        range: NonEmpty,
        for_least: i32,
        for_greatest: i32,
        z: NonEmpty,
    ) -> Option<NonEmpty>
        ensures { result ≡ Kept (A.arith self.now.arithmetic.now) self.now.operation.kind self.now.operation.modes operand range for_least for_greatest z }
    {
        let reaches = Question::reaches(self.operation, operand, for_greatest, z);
        let stays = Question::stays_in(self.operation, operand, for_least, z);
        if reaches.rises() {
            between(
                reaches.edge(self.arithmetic, range),
                stays.edge(self.arithmetic, range),
            )
        } else {
            between(
                stays.edge(self.arithmetic, range),
                reaches.edge(self.arithmetic, range),
            )
        }
    }

    /// What x keeps of its range.
    fn keep_x(&self, given: Given) -> Option<NonEmpty>
        ensures { result ≡ keeps_x (A.arith self.now.arithmetic.now) self.now.operation.kind self.now.operation.modes (triple_of given) }
    {
        let kind = self.operation.kind;
        self.kept(
            Operand::X,
            given.x,
            kind.y_for_least(given.y),
            kind.y_for_greatest(given.y),
            given.z,
        )
    }

    /// What y keeps of its range.
    fn keep_y(&self, given: Given) -> Option<NonEmpty>
        ensures { result ≡ keeps_y (A.arith self.now.arithmetic.now) self.now.operation.kind self.now.operation.modes (triple_of given) }
    {
        self.kept(Operand::Y, given.y, given.x.low(), given.x.high(), given.z)
    }

    /// What z keeps of its range.
    fn keep_z(&self, given: Given) -> Option<NonEmpty>
        ensures { result ≡ keeps_z (A.arith self.now.arithmetic.now) self.now.operation.kind self.now.operation.modes (triple_of given) }
    {
        given
            .z
            .range()
            .meet(self.results(given.x, given.y))
            .unless_empty()
    }

    /// What each range keeps, found by search; all three answers come from the same given ranges.
    fn search(&self, given: Given) -> Option<Triple>
        ensures { result ≡ narrowed_readings (A.arith self.now.arithmetic.now) self.now.operation.kind self.now.operation.modes (triple_of given) }
    {
        Some(Triple {
            x: self.keep_x(given)?.range(),
            y: self.keep_y(given)?.range(),
            z: self.keep_z(given)?.range(),
        })
    }

    /// Ranges of readings, narrowed. A search is made only where x or y does not keep all of its range.
    fn narrow_readings(&self, given: Given) -> Option<Triple>
        ensures { result ≡ narrowed_readings (A.arith self.now.arithmetic.now) self.now.operation.kind self.now.operation.modes (triple_of given) }
    {
        let Given { x, y, z } = given;
        let z = z.range();
        let results = self.results(x, y);
        if z.holds_all(results) {
            return whole(x.range(), y.range(), z, results);
        }
        if self.span_at_low(x, y).reaches_into(z) && self.span_at_high(x, y).reaches_into(z) {
            return whole(x.range(), y.range(), z, results);
        }
        self.search(given)
    }

    /// The given ranges, cut to the readings and then narrowed.
    fn narrow(&self, given: Triple) -> Option<Triple>
        ensures { result ≡ narrowed (A.arith self.now.arithmetic.now) self.now.operation.kind self.now.operation.modes given }
    {
        let readings = self.readings();
        self.narrow_readings(Given {
            x: readings.meet(given.x).unless_empty()?,
            y: readings.meet(given.y).unless_empty()?,
            z: readings.meet(given.z).unless_empty()?,
        })
    }
}

/// The given ranges narrowed by one operation, or none: exactly what the rules keep.
pub fn narrow<A: Arithmetic>(arithmetic: &A, operation: Operation, given: Triple) -> Option<Triple>
    ensures value { result ≡ narrowed (A.arith arithmetic.now) operation.kind operation.modes given }
    ensures words { Narrowing (A.arith arithmetic.now) operation.kind operation.modes given result }
{
    Constraint {
        arithmetic,
        operation,
    }
    .narrow(given)
}
