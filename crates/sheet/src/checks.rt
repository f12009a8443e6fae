ghost use Rattle.std.specs.Prelude.{◌≡◌, IfOk};
ghost use Rattle.catalogue.specs.Numbers.{kind_number};
ghost use Rattle.sheet.specs.Lines.{check_answer, checked_line, drawn_of, row_of};

use crate::lines::{CheckedLine, DrawnLine, Line};
use crate::registers::Register;
use crate::table::Row;
use catalogue::types::{Kind, Modes, Operation, Refusal};

impl DrawnLine {
    /// The checked line, or why it is declined: its kind, then its mode set, then its registers.
    pub fn check(self) -> Result<CheckedLine, Refusal>
        ensures answer { check_answer result ≡ checked_line self }
        ensures words { IfOk result (λ checked. (checked.line.x ≡ self.x) × (checked.line.y ≡ self.y) × (checked.line.z ≡ self.z) × (checked.line.operation.modes.bits ≡ self.modes) × (kind_number checked.line.operation.kind ≡ self.kind)) }
    {
        let operation = Operation {
            kind: Kind::try_from(self.kind)?,
            modes: Modes::try_from(self.modes)?,
        };
        Ok(CheckedLine {
            line: Line {
                operation,
                x: Register::try_from(self.x)?,
                y: Register::try_from(self.y)?,
                z: Register::try_from(self.z)?,
            },
        })
    }
}

/// The line as plain numbers.
impl From<Line> for Row {
    ghost from_gives = { λ l w. w ≡ row_of l };

    fn from(line: Line) -> Row {
        Row {
            kind: u8::from(line.operation.kind),
            modes: line.operation.modes.bits,
            x: u8::from(line.x),
            y: u8::from(line.y),
            z: u8::from(line.z),
        }
    }
}

/// The row as a drawn line, for the check to make a line of it again.
impl From<Row> for DrawnLine {
    ghost from_gives = { λ w d. d ≡ drawn_of w };

    fn from(row: Row) -> DrawnLine {
        DrawnLine {
            kind: u32::from(row.kind),
            modes: u32::from(row.modes),
            x: u32::from(row.x),
            y: u32::from(row.y),
            z: u32::from(row.z),
        }
    }
}

/// A line as it would be drawn, so that a line that is read back from one sheet can be entered at another.
impl From<Line> for DrawnLine {
    ghost from_gives = { λ l d. d ≡ drawn_of (row_of l) };

    fn from(line: Line) -> DrawnLine {
        DrawnLine::from(Row::from(line))
    }
}
