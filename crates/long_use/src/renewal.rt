//! A new sheet with what stands on a used one, and how the two compare once both were settled.

ghost use Rattle.std.specs.Prelude.{◌≡◌, ◌≢◌, ℕ, ◌<◌, ◌-◌, None};
ghost use Rattle.promise.specs.Promise.{SameLimits, SameLines};
ghost use Rattle.sheet.specs.Calls.{outcome_number, outcome_of};
ghost use Rattle.sheet.specs.Rules.{limits_at, line_at};
ghost use Rattle.long_use.specs.Comparisons.{Tells, judged};

use catalogue::interface::Catalogue;
use sheet::lines::DrawnLine;
use sheet::sheet::Sheet;
use sheet::table::Outcome;
use sheet::{MOST_STEPS, PLACES, REGISTERS};
use std::fmt;

/// The number of the last place.
const LAST_PLACE: u32 = PLACES as u32 - 1;

/// Gives a register of one sheet the limits that it has on another.
fn copy_limits<C: Catalogue>(from: &Sheet<C>, to: &mut Sheet<C>, register: u32)
    requires register { register < REGISTERS }
    requires same_meaning { C.meaning from.now.catalogue ≡ C.meaning to.old.catalogue }
    ensures there { limits_at to.new.table register ≡ limits_at from.now.table register }
    ensures elsewhere { (r : ℕ) → r ≢ register → limits_at to.new.table r ≡ limits_at to.old.table r }
    ensures lines { to.new.table.lines ≡ to.old.table.lines }
    ensures catalogue { to.new.catalogue ≡ to.old.catalogue }
{
    if let Ok((low, high)) = from.limits(register) {
        let _ = to.limit(register, low, high);
    }
}

/// Enters the line of a place of one sheet, if one stands there, at the place as far from the last on another.
fn copy_line<C: Catalogue>(from: &Sheet<C>, to: &mut Sheet<C>, place: u32)
    requires place { place < PLACES }
    requires free { line_at to.old.table (LAST_PLACE - place) ≡ None }
    ensures there { line_at to.new.table (LAST_PLACE - place) ≡ line_at from.now.table place }
    ensures elsewhere { (n : ℕ) → n ≢ LAST_PLACE - place → line_at to.new.table n ≡ line_at to.old.table n }
    ensures limits { to.new.table.limits ≡ to.old.table.limits }
    ensures catalogue { to.new.catalogue ≡ to.old.catalogue }
{
    if let Ok(Some(line)) = from.line(place) {
        let _ = to.tie(LAST_PLACE - place, DrawnLine::from(line));
    }
}

/// A new sheet with the limits and lines that are read back from a used one, the lines at other places.
fn renewed<C: Catalogue>(used: &Sheet<C>, catalogue: C) -> Sheet<C>
    requires { C.meaning used.now.catalogue ≡ C.meaning catalogue }
    ensures limits { SameLimits (limits_at used.now.table) (limits_at result.table) }
    ensures lines { SameLines (line_at used.now.table) (line_at result.table) }
    ensures catalogue { result.catalogue ≡ catalogue }
{
    let mut new = Sheet::new(catalogue);
    for register in 0..REGISTERS as u32 {
        copy_limits(used, &mut new, register);
    }
    for place in 0..PLACES as u32 {
        copy_line(used, &mut new, place);
    }
    new
}

/// Settles by the largest budget: how it ended.
fn settle_on<C: Catalogue>(sheet: &mut Sheet<C>) -> Outcome
    ensures outcome { outcome_number result ≡ outcome_of sheet.new.table.state }
    ensures limits { sheet.new.table.limits ≡ sheet.old.table.limits }
    ensures lines { sheet.new.table.lines ≡ sheet.old.table.lines }
    ensures catalogue { sheet.new.catalogue ≡ sheet.old.catalogue }
{
    match sheet.settle(MOST_STEPS) {
        Ok((outcome, _)) => outcome,
        Err(_) => Outcome::Stopped,
    }
}

/// Settles until rest, or until a good many budgets are spent: how it ended. A sheet at rest spends nothing.
fn settle_out<C: Catalogue>(sheet: &mut Sheet<C>) -> Outcome
    ensures outcome { outcome_number result ≡ outcome_of sheet.new.table.state }
    ensures limits { sheet.new.table.limits ≡ sheet.old.table.limits }
    ensures lines { sheet.new.table.lines ≡ sheet.old.table.lines }
    ensures catalogue { sheet.new.catalogue ≡ sheet.old.catalogue }
{
    let mut outcome = settle_on(sheet);
    for _ in 1..16 {
        outcome = settle_on(sheet);
    }
    outcome
}

/// How two sheets compare.
#[derive(Clone, Copy)]
pub enum Compared {
    BothSettled,
    BothVoid,
    NotAtRest,
    Different,
}

impl fmt::Display for Compared {
    fn fmt<W: fmt::Write>(&self, f: &mut fmt::Formatter<W>) -> fmt::Result {
        f.write_str(match *self {
            Compared::BothSettled => "both settled, and alike",
            Compared::BothVoid => "both void, and alike",
            Compared::NotAtRest => "not at rest yet",
            Compared::Different => "DIFFERENT",
        })
    }
}

/// How two sheets compare that ended so, and show the same or do not.
fn judge(used: Outcome, new: Outcome, alike: bool) -> Compared
    ensures { result ≡ judged used new alike }
{
    match (used, new) {
        (Outcome::Stopped, _) | (_, Outcome::Stopped) => Compared::NotAtRest,
        (Outcome::Settled, Outcome::Settled) if alike => Compared::BothSettled,
        (Outcome::Void, Outcome::Void) if alike => Compared::BothVoid,
        (Outcome::Settled | Outcome::Void, Outcome::Settled | Outcome::Void) => Compared::Different,
    }
}

/// Settles two sheets out, and compares what they show. With the same limits and lines they never differ.
pub(crate) fn compare<C: Catalogue>(used: &mut Sheet<C>, new: &mut Sheet<C>) -> Compared
    requires { C.meaning used.old.catalogue ≡ C.meaning new.old.catalogue }
    ensures tells { Tells result used.new.table new.new.table }
    ensures alike { SameLimits (limits_at used.old.table) (limits_at new.old.table) → SameLines (line_at used.old.table) (line_at new.old.table) → result ≢ Compared.Different }
    ensures used_stays { (used.new.table.limits ≡ used.old.table.limits) × (used.new.table.lines ≡ used.old.table.lines) }
    ensures new_stays { (new.new.table.limits ≡ new.old.table.limits) × (new.new.table.lines ≡ new.old.table.lines) }
    ensures catalogue { used.new.catalogue ≡ used.old.catalogue }
{
    let used_ended = settle_out(used);
    let new_ended = settle_out(new);
    judge(used_ended, new_ended, promise::compare(used, new))
}

/// A used sheet beside a new one with what stands on it, both settled out, and how they compare: never as different.
pub(crate) fn beside_new<C: Catalogue>(used: &mut Sheet<C>, catalogue: C) -> (Sheet<C>, Compared)
    requires { C.meaning used.old.catalogue ≡ C.meaning catalogue }
    ensures alike { result.1 ≢ Compared.Different }
    ensures tells { Tells result.1 used.new.table result.0.table }
    ensures limits { SameLimits (limits_at used.new.table) (limits_at result.0.table) }
    ensures lines { SameLines (line_at used.new.table) (line_at result.0.table) }
    ensures used_stays { (used.new.table.limits ≡ used.old.table.limits) × (used.new.table.lines ≡ used.old.table.lines) }
    ensures catalogue { used.new.catalogue ≡ used.old.catalogue }
{
    let mut new = renewed(used, catalogue);
    let compared = compare(used, &mut new);
    (new, compared)
}
