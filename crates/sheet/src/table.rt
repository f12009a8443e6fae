use crate::REGISTERS;
use crate::board::Board;
use crate::places::{Place, Places};
use crate::registers::Register;
use catalogue::types::Range;

/// The line at a place, as plain numbers, which the check makes a line again: the row of a free place is no line. A type
/// apart from `DrawnLine`: a row is copied from the table, a drawn line is moved and used up by its check.
#[derive(Clone, Copy)]
pub struct Row {
    pub(crate) kind: u8,
    pub(crate) modes: u8,
    pub(crate) x: u8,
    pub(crate) y: u8,
    pub(crate) z: u8,
}

#[derive(Clone, Copy, Debug, PartialEq, Eq)]
pub enum State {
    Settled,
    Open,
    Void,
}

/// What a sheet holds, in arrays, since a sheet allocates nothing.
#[derive(Drop)]
pub struct Table {
    pub(crate) limits: [Range; REGISTERS],
    /// Beside the limits and not in one struct with them: the return to the limits copies one whole array to the other.
    pub(crate) ranges: [Range; REGISTERS],
    /// The lines, by place.
    pub(crate) lines: Board,
    /// The places of the lines that are due.
    pub(crate) due: Places,
    pub(crate) state: State,
}

/// Nothing is left of a register's range, or of a line.
#[derive(Clone, Copy, Debug, PartialEq, Eq)]
pub(crate) struct Empty;

/// What happens to a table, at a register, at a place or to the whole of it.
#[derive(Clone, Copy, Debug, PartialEq, Eq)]
pub enum Event {
    /// The new limits of a register lie inside its old ones.
    Tightened(Register),
    /// The new limits of a register do not lie inside its old ones.
    Loosened,
    /// A line was put at a place.
    Entered(Place),
    /// The line at a place was removed.
    Struck,
    /// A step is to be made.
    Step,
}

/// How a settle ended. A type apart from `State`: `Stopped` says that a budget was spent, and `Open` is also said of a
/// sheet that nobody settled.
#[derive(Clone, Copy, Debug, PartialEq, Eq)]
pub enum Outcome {
    Settled,
    Stopped,
    Void,
}
