//! Runs published binary32 vectors through the catalogue, and prints by class and mode how many agree; and then a vector
//! that was altered, to show that a wrong one is seen.

#![tactic(auto)]

ghost use Rattle.std.specs.Prelude.{◌≡◌};
ghost use Rattle.vectors.specs.Vectors.{agreement, expected as Expected};
ghost use Rattle.binary32.specs.Binary32.{binary};

use binary32::binary32::{Binary32, round};
use catalogue::arithmetic::Readings;
use catalogue::interface::Catalogue;
use catalogue::types::{Kind, Mode};
use std::{fmt, fs};
use words::{Lines, Words, pattern};

/// The rank beyond the greatest reading.
const BEYOND: i32 = <Binary32 as Readings>::GREATEST + 1;

/// The rounding modes, in the order in which a case has its results.
const MODES: [Mode; 4] = [Mode::Nearest, Mode::Up, Mode::Down, Mode::TowardZero];

/// One published case: an operation, its operands, and its results under the modes, as patterns.
#[derive(Clone, Copy)]
struct Case {
    kind: Kind,
    x: u32,
    y: u32,
    results: [u32; 4],
    exact: bool,
}

/// What of a case agrees: whether it is exact, and its results under the modes.
#[derive(Clone, Copy)]
struct Agreement {
    exactness: bool,
    results: [bool; 4],
}

/// How many cases of a class there are, in how many it agrees whether they are exact, and how many agree under each mode.
#[derive(Clone, Copy, Default)]
struct Tally {
    cases: u32,
    exactness: u32,
    agreeing: [u32; 4],
}

/// The tallies of the four classes, each by its name, the lines that are no cases, how many cases do not agree in all, and
/// the first line of these.
#[derive(Clone, Copy, Default)]
struct Report {
    lines: u32,
    exact_sums: Tally,
    rounded_sums: Tally,
    exact_differences: Tally,
    rounded_differences: Tally,
    unreadable: u32,
    mismatches: u32,
    first_mismatch: Option<u32>,
}

/// The rank of a pattern, unless it is no reading.
fn rank(pattern: u32) -> Option<i32>
    ensures { result ≡ binary.reads pattern }
{
    Binary32::new().rank(pattern).ok()
}

/// The rank that a published result stands for: an infinity lies beyond the readings.
fn expected(published: u32) -> Option<i32>
    ensures { result ≡ Expected published }
{
    match published {
        0x7F80_0000 => Some(BEYOND),
        0xFF80_0000 => Some(-BEYOND),
        _ => rank(published),
    }
}

/// Whether the catalogue gives a published result under one mode.
fn agrees(kind: Kind, mode: Mode, x: u32, y: u32, published: u32) -> bool
    ensures { result ≡ agreement kind mode x y published }
{
    match (rank(x), rank(y), expected(published)) {
        (Some(x), Some(y), Some(expected)) => round(kind, mode, x, y) == expected,
        _ => false,
    }
}

/// Whether a result is exact: up and down give one rank. None where an operand is no reading.
fn is_exact(kind: Kind, x: u32, y: u32) -> Option<bool> {
    let (x, y) = (rank(x)?, rank(y)?);
    Some(round(kind, Mode::Up, x, y) == round(kind, Mode::Down, x, y))
}

/// The operation that a word names.
fn kind_of(word: &[u8]) -> Option<Kind> {
    match word {
        b"add" => Some(Kind::Sum),
        b"sub" => Some(Kind::Difference),
        _ => None,
    }
}

/// Whether a line's last word says that its result is exact.
fn exactness(word: &[u8]) -> Option<bool> {
    match word {
        b"exact" => Some(true),
        b"rounded" => Some(false),
        _ => None,
    }
}

/// The case that a line holds.
fn read_case(line: &[u8]) -> Option<Case> {
    let mut words = Words::new(line);
    let case = Case {
        kind: kind_of(words.next()?)?,
        x: pattern(words.next()?)?,
        y: pattern(words.next()?)?,
        results: [
            pattern(words.next()?)?,
            pattern(words.next()?)?,
            pattern(words.next()?)?,
            pattern(words.next()?)?,
        ],
        exact: exactness(words.next()?)?,
    };
    words.next().is_none().then_some(case)
}

impl Case {
    /// In what the catalogue gives what was published.
    fn agreement(&self) -> Agreement {
        let mut results = [false; 4];
        for ((mode, result), here) in MODES.iter().zip(&self.results).zip(&mut results) {
            *here = agrees(self.kind, *mode, self.x, self.y, *result);
        }
        Agreement {
            exactness: is_exact(self.kind, self.x, self.y) == Some(self.exact),
            results,
        }
    }
}

impl Agreement {
    /// Whether all of the case agrees.
    fn is_whole(&self) -> bool {
        self.exactness && !self.results.contains(&false)
    }
}

impl Tally {
    /// Counts a case.
    fn count(&mut self, agreement: Agreement) {
        self.cases = self.cases.saturating_add(1);
        self.exactness = self
            .exactness
            .saturating_add(u32::from(agreement.exactness));
        for (agreeing, here) in self.agreeing.iter_mut().zip(agreement.results) {
            *agreeing = agreeing.saturating_add(u32::from(here));
        }
    }
}

impl fmt::Display for Tally {
    fn fmt<W: fmt::Write>(&self, f: &mut fmt::Formatter<W>) -> fmt::Result {
        let Tally {
            cases,
            exactness,
            agreeing: [nearest, up, down, toward_zero],
        } = *self;
        write!(
            f,
            "{cases} cases; exactness {exactness}, nearest {nearest}, up {up}, down {down}, toward zero {toward_zero}"
        )
    }
}

impl Report {
    /// The tally of a case's class.
    fn tally(&mut self, case: Case) -> &mut Tally {
        match (case.kind, case.exact) {
            (Kind::Sum, true) => &mut self.exact_sums,
            (Kind::Sum, false) => &mut self.rounded_sums,
            (_, true) => &mut self.exact_differences,
            (_, false) => &mut self.rounded_differences,
        }
    }

    /// Takes in the next line.
    fn take_in(&mut self, line: &[u8]) {
        self.lines = self.lines.saturating_add(1);
        let Some(case) = read_case(line) else {
            self.unreadable = self.unreadable.saturating_add(1);
            return;
        };
        let agreement = case.agreement();
        self.tally(case).count(agreement);
        if !agreement.is_whole() {
            self.mismatches = self.mismatches.saturating_add(1);
            self.first_mismatch = self.first_mismatch.or(Some(self.lines));
        }
    }
}

impl fmt::Display for Report {
    fn fmt<W: fmt::Write>(&self, f: &mut fmt::Formatter<W>) -> fmt::Result {
        writeln!(f, "exact sums: {}", self.exact_sums)?;
        writeln!(f, "rounded sums: {}", self.rounded_sums)?;
        writeln!(f, "exact differences: {}", self.exact_differences)?;
        writeln!(f, "rounded differences: {}", self.rounded_differences)?;
        writeln!(f, "lines that are no case: {}", self.unreadable)?;
        match self.first_mismatch {
            Some(number) => write!(
                f,
                "mismatches: {}, the first in line {number}",
                self.mismatches
            ),
            None => f.write_str("no mismatch"),
        }
    }
}

/// Runs every line of a text.
fn run(text: &[u8]) -> Report {
    let mut report = Report::default();
    for line in Lines::new(text) {
        report.take_in(line);
    }
    report
}

fn main(rt: HostRuntime) -> anyhow::Result<()> {
    let published = fs::read(&rt, "binary32-add-sub.txt")?;
    let report = run(published.as_slice());
    println!(rt; "{report}")?;
    println!(rt; "altered:")?;
    let altered = fs::read(&rt, "altered.txt")?;
    let report = run(altered.as_slice());
    println!(rt; "{report}")?;
    Ok(())
}
