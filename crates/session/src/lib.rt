//! A script and its answers: each command carried out on one sheet, in turn.

#![tactic(auto)]

ghost use Rattle.std.specs.Prelude.{◌≡◌, List, ◌++◌, IfOk, IfSome, OnOk, Some, string_bytes};
ghost use Rattle.std.specs.Io.KnownBytes.{Appends};
ghost use Rattle.answers.specs.Texts.{line_of, refused, reply_of};
ghost use Rattle.commands.specs.Commands.{command_of};
ghost use Rattle.promise.specs.Histories.{Call, after};
ghost use Rattle.promise.specs.Promise.{Consequences, Promise};
ghost use Rattle.session.specs.declared.TheConstants.{MOST_BYTES};
ghost use Rattle.session.specs.Sessions.{Leads, LeadsOn, Told, answers, calls_of, replied, reply_or, table_after, written_for};
ghost use Rattle.sheet.specs.Rules.{new_table};
ghost use Rattle.words.specs.Lines.{lines};

use answers::{Answer, write};
use binary32::binary32::Binary32;
use catalogue::interface::Catalogue;
use catalogue::types::Refusal;
use commands::{Command, read};
use counters::counter::Counter;
use promise::show;
use sheet::sheet::Sheet;
use std::alloc::{AllocError, Global};
use std::io;
use std::io::{Read, Write};
use words::{Lines, line};

/// The longest input that is read as a script.
pub const MOST_BYTES: usize = 65_536;

/// Carries out a command.
fn carry_out<C: Catalogue>(sheet: &mut Sheet<C>, command: Command) -> Result<Answer, Refusal>
    ensures answer { reply_or result ≡ replied (C.meaning sheet.old.catalogue) (Some command) sheet.old.table }
    ensures table { sheet.new.table ≡ table_after (C.meaning sheet.old.catalogue) (Some command) sheet.old.table }
    ensures catalogue { sheet.new.catalogue ≡ sheet.old.catalogue }
{
    match command {
        Command::Limit {
            register,
            low,
            high,
        } => sheet.limit(register, low, high).map(|()| Answer::Done),
        Command::Enter { place, line } => sheet.tie(place, line).map(|()| Answer::Done),
        Command::Strike { place } => sheet.strike(place).map(|()| Answer::Done),
        Command::Settle { budget } => sheet
            .settle(budget)
            .map(|(outcome, steps)| Answer::Stepped { outcome, steps }),
        Command::Look { register } => show(sheet, register).map(Answer::Shown),
        Command::Partner { place, x, z } => sheet.partner(place, x, z).map(Answer::Partner),
    }
}

/// Carries out the command that a line stands for; one that stands for none is unreadable.
fn respond<C: Catalogue>(sheet: &mut Sheet<C>, line: &[u8]) -> Result<Answer, Refusal>
    ensures answer { reply_or result ≡ replied (C.meaning sheet.old.catalogue) (command_of line.now) sheet.old.table }
    ensures table { sheet.new.table ≡ table_after (C.meaning sheet.old.catalogue) (command_of line.now) sheet.old.table }
    ensures catalogue { sheet.new.catalogue ≡ sheet.old.catalogue }
{
    let command = read(line).ok_or(Refusal::Unreadable)?;
    carry_out(sheet, command)
}

/// Carries out the command that a line stands for, and answers it. Whatever calls led to the sheet, with this line's call
/// they lead to what it is then, and it shows what the promise says.
pub fn answer<C: Catalogue>(sheet: &mut Sheet<C>, line: &[u8]) -> Answer
    ensures answer { reply_of result ≡ replied (C.meaning sheet.old.catalogue) (command_of line.now) sheet.old.table }
    ensures table { sheet.new.table ≡ table_after (C.meaning sheet.old.catalogue) (command_of line.now) sheet.old.table }
    ensures catalogue { sheet.new.catalogue ≡ sheet.old.catalogue }
    ensures history { (h : List Call) → sheet.old.table ≡ after (C.meaning sheet.old.catalogue) h → Leads (C.meaning sheet.old.catalogue) (calls_of (command_of line.now) ++ h) sheet.new.table }
    ensures leads_on { ∥ LeadsOn (C.meaning sheet.old.catalogue) (calls_of (command_of line.now)) sheet.old.table sheet.new.table ∥₁ }
    ensures promise { Promise (C.meaning sheet.old.catalogue) }
    ensures consequences { Consequences (C.meaning sheet.old.catalogue) }
{
    respond(sheet, line).unwrap_or_else(Answer::Declined)
}

/// Answers every line of a script on one sheet.
fn answer_all<C: Catalogue>(
    sheet: &mut Sheet<C>,
    heap: Global,
    script: &[u8],
) -> Result<String, AllocError>
    ensures { IfOk result (λ s. string_bytes s ≡ answers (C.meaning sheet.old.catalogue) (lines script.now) sheet.old.table) }
{
    let mut out = String::new(heap);
    for line in Lines::new(script) {
        write(&mut out, answer(sheet, line))?;
    }
    Ok(out)
}

/// Answers every line of a script on a new sheet. At every line the sheet is what the calls before it lead to, and shows
/// what the promise says.
pub fn answer_anew<C: Catalogue + Drop>(
    catalogue: C,
    heap: Global,
    script: &[u8],
) -> Result<String, AllocError>
    ensures answers { IfOk result (λ s. string_bytes s ≡ answers (C.meaning catalogue) (lines script.now) (new_table (C.meaning catalogue))) }
    ensures histories { Told (C.meaning catalogue) }
{
    let mut sheet = Sheet::new(catalogue);
    answer_all(&mut sheet, heap, script)
}

/// The answer to an input that is no script.
fn unreadable(heap: Global) -> Result<String, AllocError>
    ensures { IfOk result (λ s. string_bytes s ≡ line_of (refused 10)) }
{
    let mut out = String::new(heap);
    write(&mut out, Answer::Declined(Refusal::Unreadable))?;
    Ok(out)
}

/// What is written for an input: the answers to its lines behind the first, which names the catalogue.
pub fn answer_input(heap: Global, input: &[u8]) -> Result<String, AllocError>
    ensures answers { IfOk result (λ s. string_bytes s ≡ written_for input.now) }
    ensures most { MOST_BYTES ≡ 65536 }
{
    if input.len() > MOST_BYTES {
        return unreadable(heap);
    }
    let (board, script) = line(input);
    match board {
        [b'B'] => answer_anew(Binary32::new(), heap, script),
        [b'C'] => answer_anew(Counter, heap, script),
        _ => unreadable(heap),
    }
}

/// Reads an input to its end and writes what it is answered. An error leaves open how much was read and written.
pub fn serve<R: Read + Drop, W: Write>(heap: Global, input: R, output: &mut W) -> io::Result<()>
    ensures { OnOk result (IfSome (R.remaining input) (λ bytes. Appends (W.contents output.old) (W.contents output.new) (written_for bytes))) }
{
    let mut bytes = Vec::new(heap);
    // One byte more than the longest script tells that an input is too long.
    input.take(MOST_BYTES as u64 + 1).read_to_end(&mut bytes)?;
    let answers = answer_input(heap, bytes.as_slice())?;
    output.write_all(answers.as_bytes())
}

#[cfg(test)]
mod tests {
    use super::*;

    #[test]
    fn a_script_is_read_and_its_answers_are_written(rt: HostRuntime) {
        let script = b"C\nL 0 00000001 00000002\nR 0\n";
        let mut written = Vec::new(rt.alloc());
        let served = serve(rt.alloc(), script.as_slice(), &mut written);
        assert!(rt; served.is_ok(), "no memory, or no reading or writing");
        assert_eq!(rt;
            written.as_slice(),
            b"ok\n00000001 00000002 settled\n".as_slice()
        );
    }
}
