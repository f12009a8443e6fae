//! Small code that calls a sheet of counters.

#![tactic(auto)]

ghost use Rattle.std.specs.Prelude.{◌≡◌};
ghost use Rattle.catalogue.specs.Refusals.{numbered};
ghost use Rattle.client.specs.Clients.{either_asked, either_table, peeked, stepped};
ghost use Rattle.counters.specs.Counters.{counter};
ghost use Rattle.sheet.specs.Calls.{drawn_asked, drawn_table, enter_answer};
ghost use Rattle.sheet.specs.Lines.{checked_line};
ghost use Rattle.sheet.specs.Rules.{new_table};

use catalogue::interface::Catalogue;
use catalogue::types::{Range, Refusal};
use counters::counter::Counter;
use sheet::lines::{CheckedLine, DrawnLine};
use sheet::sheet::Sheet;

/// Has a drawn line checked, and enters the checked line.
pub fn tie(sheet: &mut Sheet<Counter>, place: u32, line: DrawnLine) -> Result<(), Refusal>
    ensures answer { numbered result ≡ drawn_asked place (checked_line line) sheet.old.table }
    ensures table { sheet.new.table ≡ drawn_table counter place (checked_line line) sheet.old.table }
{
    let checked = line.check()?;
    sheet
        .enter(place, checked)
        .map_err(|(refusal, _line)| refusal)
}

/// Enters a checked line at a place or, where that is refused, at a second one: the refusal hands the line back.
pub fn enter_at_either(
    sheet: &mut Sheet<Counter>,
    first: u32,
    second: u32,
    line: CheckedLine,
) -> Result<(), (Refusal, CheckedLine)>
    ensures answer { enter_answer result ≡ either_asked first second line sheet.old.table }
    ensures table { sheet.new.table ≡ either_table counter first second line sheet.old.table }
{
    match sheet.enter(first, line) {
        Ok(()) => Ok(()),
        Err((_refusal, line)) => sheet.enter(second, line),
    }
}

/// Looks at a register, and once the look has ended makes one step.
pub fn peek_and_step(sheet: &mut Sheet<Counter>, register: u32) -> Result<Range, Refusal>
    ensures answer { numbered result ≡ peeked register sheet.old.table }
    ensures table { sheet.new.table ≡ stepped counter (peeked register sheet.old.table) sheet.old.table }
{
    let look = sheet.look()?;
    let range = look.range(register)?;
    let _ = sheet.settle(1);
    Ok(range)
}

/// Two sheets change places: each keeps its own history.
pub fn exchange<C: Catalogue>(a: &mut Sheet<C>, b: &mut Sheet<C>)
    ensures one { a.new ≡ b.old }
    ensures other { b.new ≡ a.old }
{
    std::mem::swap(a, b);
}

/// A new sheet in place of an old one.
pub fn renew<C: Catalogue + Drop>(sheet: &mut Sheet<C>, catalogue: C)
    ensures table { sheet.new.table ≡ new_table (C.meaning catalogue) }
    ensures catalogue { sheet.new.catalogue ≡ catalogue }
{
    *sheet = Sheet::new(catalogue);
}

/// A sheet taken out, with a new one in its place.
pub fn take<C: Catalogue>(sheet: &mut Sheet<C>, catalogue: C) -> Sheet<C>
    ensures taken { result ≡ sheet.old }
    ensures table { sheet.new.table ≡ new_table (C.meaning catalogue) }
    ensures catalogue { sheet.new.catalogue ≡ catalogue }
{
    std::mem::replace(sheet, Sheet::new(catalogue))
}
