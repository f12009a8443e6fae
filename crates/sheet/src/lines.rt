ghost use Rattle.std.specs.Prelude.{◌<◌};
ghost use Rattle.sheet.specs.declared.TheConstants.{REGISTERS};

use crate::registers::Register;
use catalogue::types::Operation;

/// A line as it was drawn: any kind, mode set and registers. Numbers, since what was drawn may name none; the check says
/// which is wrong.
#[derive(Clone, Debug, PartialEq, Eq, Drop)]
pub struct DrawnLine {
    pub kind: u32,
    pub modes: u32,
    pub x: u32,
    pub y: u32,
    pub z: u32,
}

/// What a line says: its operation, and the three registers that it ties.
#[derive(Clone, Copy, Debug, PartialEq, Eq)]
pub struct Line {
    pub operation: Operation,
    pub x: Register,
    pub y: Register,
    pub z: Register,
}

/// A line that passed the check. Only such a line can be entered, and entering uses it up.
#[derive(Debug, Drop)]
pub struct CheckedLine {
    pub(crate) line: Line,
    ghost some_mode: { 0 < line.operation.modes.bits },
    ghost no_other_mode: { line.operation.modes.bits < 16 },
    // A clause sees a register as its number, so what the type says of each is said again here, for those who read clauses.
    ghost x_exists: { line.x < REGISTERS },
    ghost y_exists: { line.y < REGISTERS },
    ghost z_exists: { line.z < REGISTERS },
}
