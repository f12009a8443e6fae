//! A long-used sheet beside a new one: two scripts are replayed, and then a hundred thousand changes are made by a fixed
//! rule, and time and again the sheet is compared with a new one that gets only the limits and lines that stand. At last
//! sheets that are unlike are compared, to show that a difference is seen: other limits at a register in the middle or at
//! the last one, and a void sheet beside a settled one.

#![tactic(auto)]

mod renewal;

ghost use Rattle.std.specs.Prelude.{◌≡◌, ◌≢◌, IfOk, OnOk};
ghost use Rattle.sheet.specs.Calls.{drawn_table};
ghost use Rattle.sheet.specs.Histories.{called, limit, strike};
ghost use Rattle.sheet.specs.Lines.{checked_line};

use binary32::binary32::Binary32;
use catalogue::interface::Catalogue;
use commands::{Command, read};
use counters::counter::Counter;
use renewal::{Compared, beside_new, compare};
use sheet::lines::DrawnLine;
use sheet::sheet::Sheet;
use sheet::{PLACES, REGISTERS};
use std::alloc::{AllocError, Global};
use std::collections::BTreeMap;
use std::{fmt, fs, io};
use words::{Lines, line};

/// Limits as they were asked for, by pattern.
#[derive(Clone, Copy)]
struct Limits {
    low: u32,
    high: u32,
}

/// A sheet in use, and beside it notes of the limits and lines that stand on it, kept from the calls alone.
#[derive(Drop)]
struct Used<C: Catalogue> {
    sheet: Sheet<C>,
    limits: BTreeMap<u32, Limits>,
    lines: BTreeMap<u32, DrawnLine>,
}

impl<C: Catalogue> Used<C> {
    fn new(heap: Global, catalogue: C) -> Self
        ensures { result.sheet.catalogue ≡ catalogue }
    {
        Used {
            sheet: Sheet::new(catalogue),
            limits: BTreeMap::new(heap),
            lines: BTreeMap::new(heap),
        }
    }

    /// Makes a limit, and notes it if it was carried out.
    fn limit(&mut self, register: u32, limits: Limits) -> Result<(), AllocError>
        ensures call { self.new.sheet.table ≡ called (C.meaning self.old.sheet.catalogue) (limit register limits.low limits.high) self.old.sheet.table }
        ensures catalogue { self.new.sheet.catalogue ≡ self.old.sheet.catalogue }
    {
        if self.sheet.limit(register, limits.low, limits.high).is_ok() {
            self.limits.insert(register, limits)?;
        }
        Ok(())
    }

    /// Enters a line, and notes it if it was carried out.
    fn tie(&mut self, place: u32, line: DrawnLine) -> Result<(), AllocError>
        ensures call { OnOk result (self.new.sheet.table ≡ drawn_table (C.meaning self.old.sheet.catalogue) place (checked_line line) self.old.sheet.table) }
        ensures catalogue { self.new.sheet.catalogue ≡ self.old.sheet.catalogue }
    {
        let noted = line.clone()?;
        if self.sheet.tie(place, line).is_ok() {
            self.lines.insert(place, noted)?;
        }
        Ok(())
    }

    /// Strikes a line, and drops its note if it was carried out.
    fn strike(&mut self, place: u32)
        ensures call { self.new.sheet.table ≡ called (C.meaning self.old.sheet.catalogue) (strike place) self.old.sheet.table }
        ensures catalogue { self.new.sheet.catalogue ≡ self.old.sheet.catalogue }
    {
        if self.sheet.strike(place).is_ok() {
            let _ = self.lines.remove(&place);
        }
    }

    /// Carries out a command of a script.
    fn carry_out(&mut self, command: Command) -> Result<(), AllocError>
        ensures { self.new.sheet.catalogue ≡ self.old.sheet.catalogue }
    {
        match command {
            Command::Limit {
                register,
                low,
                high,
            } => self.limit(register, Limits { low, high })?,
            Command::Enter { place, line } => self.tie(place, line)?,
            Command::Strike { place } => self.strike(place),
            Command::Settle { budget } => {
                let _ = self.sheet.settle(budget);
            }
            Command::Look { register } => {
                let _ = look_at(&self.sheet, register);
            }
            Command::Partner { place, x, z } => {
                let _ = self.sheet.partner(place, x, z);
            }
        }
        Ok(())
    }

    /// Whether the limits that are read back at a register are those that were noted there: the same readings, since a reading
    /// may have several patterns.
    fn has_noted_limits(&self, catalogue: &C, register: u32) -> bool {
        let all = catalogue.ends();
        let noted = self.limits.get(&register).copied().unwrap_or(Limits {
            low: catalogue.pattern(all.low),
            high: catalogue.pattern(all.high),
        });
        match self.sheet.limits(register) {
            Ok((low, high)) => {
                catalogue.rank(low) == catalogue.rank(noted.low)
                    && catalogue.rank(high) == catalogue.rank(noted.high)
            }
            Err(_) => false,
        }
    }

    /// Whether the line that is read back at a place is the one that was noted there, or none is and none was.
    fn has_noted_line(&self, place: u32) -> bool {
        match (self.sheet.line(place), self.lines.get(&place)) {
            (Ok(Some(line)), Some(noted)) => DrawnLine::from(line) == *noted,
            (Ok(None), None) => true,
            _ => false,
        }
    }

    /// Whether what is read back from the sheet is what was noted.
    fn is_as_noted(&self, catalogue: &C) -> bool {
        (0..REGISTERS as u32).all(|register| self.has_noted_limits(catalogue, register))
            && (0..PLACES as u32).all(|place| self.has_noted_line(place))
    }
}

/// A register's range by patterns, unless the sheet is void or has no such register.
fn look_at<C: Catalogue>(sheet: &Sheet<C>, register: u32) -> Option<(u32, u32)> {
    let look = sheet.look().ok()?;
    look.patterns(register).ok()
}

/// Replays a script on a sheet, and keeps what stands.
fn replay<C: Catalogue>(used: &mut Used<C>, script: &[u8]) -> Result<(), AllocError>
    ensures { used.new.sheet.catalogue ≡ used.old.sheet.catalogue }
{
    for line in Lines::new(script) {
        if let Some(command) = read(line) {
            used.carry_out(command)?;
        }
    }
    Ok(())
}

/// What a used and a new sheet show of one register.
#[derive(Clone, Copy)]
struct Beside {
    used: Option<(u32, u32)>,
    new: Option<(u32, u32)>,
}

impl fmt::Display for Beside {
    fn fmt<W: fmt::Write>(&self, f: &mut fmt::Formatter<W>) -> fmt::Result {
        match (self.used, self.new) {
            (Some((a, b)), Some((c, d))) => write!(f, "used {a:08X} {b:08X}, new {c:08X} {d:08X}"),
            (None, None) => f.write_str("used void, new void"),
            _ => f.write_str("one of the two is void"),
        }
    }
}

/// A script replayed on one sheet, beside a new sheet with what stands at its end.
fn replay_beside_new<C: Catalogue + Copy + Drop>(
    rt: &impl Print,
    heap: Global,
    catalogue: C,
    script: &[u8],
) -> io::Result<()> {
    let (_board, commands) = line(script);
    let mut used = Used::new(heap, catalogue);
    replay(&mut used, commands)?;
    if !used.is_as_noted(&catalogue) {
        println!(rt; "MISREAD: what is read back is not what was noted")?;
    }
    let (new, compared) = beside_new(&mut used.sheet, catalogue);
    for register in 0..REGISTERS as u32 {
        let beside = Beside {
            used: look_at(&used.sheet, register),
            new: look_at(&new, register),
        };
        println!(rt; "register {register}: {beside}")?;
    }
    println!(rt; "{compared}")
}

/// A fixed rule for numbers that look random.
#[derive(Clone, Copy)]
struct Numbers {
    state: u64,
}

impl Numbers {
    /// A number below `limit`, which counts as 1 where it is 0.
    fn below(&mut self, limit: u32) -> u32 {
        self.state = self
            .state
            .wrapping_mul(6_364_136_223_846_793_005)
            .wrapping_add(1_442_695_040_888_963_407);
        ((self.state >> 33) % u64::from(limit.max(1))) as u32
    }

    /// Patterns of readings that lie close together, from `base` on.
    fn limits_near(&mut self, base: u32) -> Limits {
        let low = base.saturating_add(self.below(2_000));
        Limits {
            low,
            high: low.saturating_add(self.below(3_000)),
        }
    }

    /// A line that may not pass the check.
    fn line(&mut self) -> DrawnLine {
        DrawnLine {
            kind: self.below(3),
            modes: self.below(17),
            x: self.below(33),
            y: self.below(12),
            z: self.below(33),
        }
    }
}

/// One change by the rule: a limit, an enter, a strike, and now and then a settle that may stop.
fn change<C: Catalogue>(
    used: &mut Used<C>,
    numbers: &mut Numbers,
    base: u32,
) -> Result<(), AllocError>
    ensures { used.new.sheet.catalogue ≡ used.old.sheet.catalogue }
{
    match numbers.below(8) {
        0..=2 => {
            let register = numbers.below(12);
            used.limit(register, numbers.limits_near(base))?;
        }
        3 | 4 => {
            let line = numbers.line();
            used.tie(numbers.below(12), line)?;
        }
        5 | 6 => used.strike(numbers.below(12)),
        _ => {
            let _ = used.sheet.settle(numbers.below(12));
        }
    }
    Ok(())
}

fn count_one(count: &mut u32) {
    *count = count.saturating_add(1);
}

/// How many comparisons came out how, and before how many of them what was read back was not what was noted.
#[derive(Clone, Copy, Default)]
struct Counts {
    settled: u32,
    void: u32,
    not_at_rest: u32,
    different: u32,
    misread: u32,
}

impl Counts {
    fn note(&mut self, compared: Compared)
        ensures { compared ≢ Compared.Different → self.new.different ≡ self.old.different }
    {
        match compared {
            Compared::BothSettled => count_one(&mut self.settled),
            Compared::BothVoid => count_one(&mut self.void),
            Compared::NotAtRest => count_one(&mut self.not_at_rest),
            Compared::Different => count_one(&mut self.different),
        }
    }

    fn note_misread(&mut self)
        ensures { self.new.different ≡ self.old.different }
    {
        count_one(&mut self.misread);
    }
}

impl fmt::Display for Counts {
    fn fmt<W: fmt::Write>(&self, f: &mut fmt::Formatter<W>) -> fmt::Result {
        let Counts {
            settled,
            void,
            not_at_rest,
            different,
            misread,
        } = *self;
        write!(
            f,
            "{settled} settled and alike, {void} void and alike, {not_at_rest} not at rest, {different} different"
        )?;
        if misread > 0 {
            write!(f, ", {misread} MISREAD")?;
        }
        Ok(())
    }
}

/// A hundred thousand changes, with a comparison every thousand.
fn soak<C: Catalogue + Copy + Drop>(
    heap: Global,
    catalogue: C,
    base: u32,
) -> Result<Counts, AllocError>
    ensures { IfOk result (λ counts. counts.different ≡ 0) }
{
    let mut counts = Counts::default();
    let mut numbers = Numbers { state: 754 };
    let mut used = Used::new(heap, catalogue);
    for _ in 0..100 {
        for _ in 0..1_000 {
            change(&mut used, &mut numbers, base)?;
        }
        if !used.is_as_noted(&catalogue) {
            counts.note_misread();
        }
        let (_new, compared) = beside_new(&mut used.sheet, catalogue);
        counts.note(compared);
    }
    Ok(counts)
}

/// Two new sheets, one with other limits at a register: a comparison that sees nothing there would find them alike.
fn compare_unlike(register: u32) -> Compared {
    let mut one = Sheet::new(Counter);
    let mut other = Sheet::new(Counter);
    let _ = other.limit(register, 0, 1);
    compare(&mut one, &mut other)
}

/// A void sheet, on which 1 + 1 is to be 1, beside a new one.
fn compare_void() -> Compared {
    let mut void = Sheet::new(Counter);
    let _ = void.limit(0, 1, 1);
    let line = DrawnLine {
        kind: 0,
        modes: 1,
        x: 0,
        y: 0,
        z: 0,
    };
    let _ = void.tie(0, line);
    let mut new = Sheet::new(Counter);
    compare(&mut void, &mut new)
}

fn main(rt: HostRuntime) -> anyhow::Result<()> {
    let heap = rt.alloc();
    let counter = fs::read(&rt, "long_use_c.txt")?;
    let binary = fs::read(&rt, "long_use_b.txt")?;
    println!(rt; "a counter sheet")?;
    replay_beside_new(&rt, heap, Counter, counter.as_slice())?;
    println!(rt; "a binary32 sheet")?;
    replay_beside_new(&rt, heap, Binary32::new(), binary.as_slice())?;
    let counter = soak(heap, Counter, 0)?;
    println!(rt; "counter: 100000 changes, 100 comparisons: {counter}")?;
    let binary = soak(heap, Binary32::new(), 0x3F80_0000)?;
    println!(rt; "binary32: 100000 changes, 100 comparisons: {binary}")?;
    println!(rt; "two sheets with other limits at register 7")?;
    println!(rt; "{}", compare_unlike(7))?;
    println!(rt; "two sheets with other limits at register 31")?;
    println!(rt; "{}", compare_unlike(31))?;
    println!(rt; "a void sheet and a settled one")?;
    println!(rt; "{}", compare_void())?;
    Ok(())
}
