//! What a sheet shows, with the promise about long use on the call that shows it.

#![tactic(auto)]

ghost use Rattle.std.specs.Prelude.{◌≡◌, ◌↔◌, IfOk, IsTrue};
ghost use Rattle.promise.specs.Compared.{SameAtRest, ShowSame};
ghost use Rattle.promise.specs.Promise.{Consequences, Promise, ShowsOfSome};
ghost use Rattle.promise.specs.Shown.{IsShown, show_answer, show_asked};

use catalogue::interface::Catalogue;
use catalogue::types::Refusal;
use sheet::sheet::Sheet;

/// A register's range by the patterns of its ends, and whether the sheet is settled.
#[derive(Clone, Copy, Debug, PartialEq, Eq)]
pub struct Shown {
    pub low: u32,
    pub high: u32,
    pub settled: bool,
}

/// What a sheet shows of a register. A function of its own, so that the proof of `show` has only the clauses about the
/// promise left.
fn look_at<C: Catalogue>(sheet: &Sheet<C>, register: u32) -> Result<Shown, Refusal>
    ensures { show_answer result ≡ show_asked (C.meaning sheet.now.catalogue) register sheet.now.table }
{
    let look = sheet.look()?;
    let (low, high) = look.patterns(register)?;
    Ok(Shown {
        low,
        high,
        settled: look.is_settled(),
    })
}

/// What a sheet shows of a register. Whatever calls led to the sheet, it shows what the promise says.
pub fn show<C: Catalogue>(sheet: &Sheet<C>, register: u32) -> Result<Shown, Refusal>
    ensures answer { show_answer result ≡ show_asked (C.meaning sheet.now.catalogue) register sheet.now.table }
    ensures words { IfOk result (λ shown. IsShown (C.meaning sheet.now.catalogue) register shown sheet.now.table) }
    ensures shows { ∥ ShowsOfSome (C.meaning sheet.now.catalogue) sheet.now.table ∥₁ }
    ensures promise { Promise (C.meaning sheet.now.catalogue) }
    ensures consequences { Consequences (C.meaning sheet.now.catalogue) }
{
    look_at(sheet, register)
}

/// Whether two sheets show the same. A function of its own, as `look_at` is.
fn show_same<C: Catalogue>(a: &Sheet<C>, b: &Sheet<C>) -> bool
    ensures { IsTrue result ↔ ShowSame a.now.table b.now.table }
{
    match (a.look(), b.look()) {
        (Ok(one), Ok(other)) => one.shows_same(&other),
        (Err(_), Err(_)) => true,
        _ => false,
    }
}

/// Whether two sheets over one catalogue show the same: both are void, or both are settled, or both are open, with the same
/// range at every register. Two that are at rest with the same limits and the same lines, at whatever places, do.
pub fn compare<C: Catalogue>(a: &Sheet<C>, b: &Sheet<C>) -> bool
    ensures answer { IsTrue result ↔ ShowSame a.now.table b.now.table }
    ensures at_rest { C.meaning a.now.catalogue ≡ C.meaning b.now.catalogue → SameAtRest a.now.table b.now.table → IsTrue result }
{
    show_same(a, b)
}
