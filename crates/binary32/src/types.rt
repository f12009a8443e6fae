/// Where an exact magnitude lies from a rank's magnitude up to the next: at it, or below, at or above the middle.
#[derive(Clone, Copy, Debug, PartialEq, Eq)]
pub enum Rest {
    Exact,
    BelowMiddle,
    Middle,
    AboveMiddle,
}

/// Where an exact magnitude lies: `rank` is the greatest magnitude of a rank at or below it, and `rest` tells what is left.
#[derive(Clone, Copy, Debug, PartialEq, Eq)]
pub struct Location {
    pub rank: u32,
    pub rest: Rest,
}

/// An exact sum: its sign, and where its magnitude lies.
#[derive(Clone, Copy, Debug, PartialEq, Eq)]
pub struct ExactSum {
    pub negative: bool,
    pub location: Location,
}
