/// The kinds of operation that a line can have.
#[derive(Clone, Copy, Debug, PartialEq, Eq)]
pub enum Kind {
    Sum,
    Difference,
    Peak,
}

/// The rounding modes.
#[derive(Clone, Copy, Debug, PartialEq, Eq)]
pub enum Mode {
    Nearest,
    Up,
    Down,
    TowardZero,
}

/// A set of rounding modes: a sum of 1 (nearest), 2 (up), 4 (down) and 8 (toward zero). Any number is one, as calls are
/// answered for every argument.
#[derive(Clone, Copy, Debug, PartialEq, Eq)]
pub struct Modes {
    pub bits: u8,
}

/// An operation: its kind, and the set of modes under which its results may be rounded.
#[derive(Clone, Copy, Debug, PartialEq, Eq)]
pub struct Operation {
    pub kind: Kind,
    pub modes: Modes,
}

/// The ranks from `low` to `high`, both included.
#[derive(Clone, Copy, Debug, PartialEq, Eq)]
pub struct Range {
    pub low: i32,
    pub high: i32,
}

/// The ranges of a line's three registers.
#[derive(Clone, Copy, Debug, PartialEq, Eq)]
pub struct Triple {
    pub x: Range,
    pub y: Range,
    pub z: Range,
}

/// The least and the greatest result of an operation among the modes of a set. No `Range`: a rank between them need not
/// be a result.
#[derive(Clone, Copy, Debug, PartialEq, Eq)]
pub struct Span {
    pub least: i32,
    pub greatest: i32,
}

/// One of an operation's two operands.
#[derive(Clone, Copy, Debug, PartialEq, Eq)]
pub enum Operand {
    X,
    Y,
}

/// What is asked of a result: that the greatest one reaches a bound, or that the least one does not pass it.
#[derive(Clone, Copy, Debug, PartialEq, Eq)]
pub enum Asks {
    AtLeast,
    AtMost,
}

/// A question about one operand while the other is held at `other`. A value and no closure, since the definitions speak
/// of questions too.
#[derive(Clone, Copy, Debug, PartialEq, Eq)]
pub struct Question {
    pub operation: Operation,
    pub operand: Operand,
    pub other: i32,
    pub asks: Asks,
    pub bound: i32,
}

/// Why a call is declined.
#[derive(Clone, Copy, Debug, PartialEq, Eq)]
pub enum Refusal {
    NoSuchRegister,
    NotAReading,
    LowAboveHigh,
    NoSuchKind,
    NoSuchModes,
    PlaceTaken,
    NoLineThere,
    BudgetOutOfRange,
    SheetVoid,
    Unreadable,
}
