//! The commands of a script, and the reader that makes one of a line.

#![tactic(auto)]

ghost use Rattle.commands.specs.Commands.{by_letter, command_of, enter_of, kind_by_letter, kind_of, limit_of, look_of, none_left, partner_of, settle_of, strike_of};
ghost use Rattle.commands.specs.Lines.{Reads};
ghost use Rattle.catalogue.specs.Numbers.{kind_number};
ghost use Rattle.std.specs.Prelude.{◌≡◌};

use catalogue::types::Kind;
use sheet::lines::DrawnLine;
use words::{Words, number, pattern};

/// A command, with its words as they were read: no number in it is known to fit its use.
#[derive(Clone, Debug, PartialEq, Eq, Drop)]
pub enum Command {
    Limit { register: u32, low: u32, high: u32 },
    Enter { place: u32, line: DrawnLine },
    Settle { budget: u32 },
    Look { register: u32 },
    Strike { place: u32 },
    Partner { place: u32, x: u32, z: u32 },
}

/// The command that a line stands for, if it stands for one.
// Inlined, as its longer readers are, so that the caller goes on from the letter and no command is laid down in memory: a
// script of short commands takes about a sixth less time.
#[tactic(auto, using(crate::proofs::Readings::read_law, crate::proofs::Splits::command_at))]
#[inline(always)]
pub fn read(line: &[u8]) -> Option<Command>
    ensures value { result ≡ command_of line.now }
    ensures reads { Reads line.now result }
{
    match line {
        [letter, b' ', text @ ..] => lettered(char::from(*letter), Words::new(text)),
        _ => None,
    }
}

/// The command that a letter and the words behind it stand for.
#[inline(always)]
fn lettered(letter: char, words: Words<'_>) -> Option<Command>
    ensures { result ≡ by_letter letter words.entry }
{
    match letter {
        'L' => limit(words),
        'E' => enter(words),
        'S' => settle(words),
        'R' => look(words),
        'K' => strike(words),
        'P' => partner(words),
        _ => None,
    }
}

/// `L register low high`, without the letter.
#[inline(always)]
fn limit(mut words: Words<'_>) -> Option<Command>
    ensures { result ≡ limit_of words.entry }
{
    let register = number(words.next()?)?;
    let low = pattern(words.next()?)?;
    let high = pattern(words.next()?)?;
    no_more(words)?;
    Some(Command::Limit {
        register,
        low,
        high,
    })
}

/// `E place kind modes x y z`, without the letter.
#[inline(always)]
fn enter(mut words: Words<'_>) -> Option<Command>
    ensures { result ≡ enter_of words.entry }
{
    let place = number(words.next()?)?;
    let kind = kind(words.next()?)?;
    let modes = number(words.next()?)?;
    let x = number(words.next()?)?;
    let y = number(words.next()?)?;
    let z = number(words.next()?)?;
    no_more(words)?;
    let line = DrawnLine {
        kind,
        modes,
        x,
        y,
        z,
    };
    Some(Command::Enter { place, line })
}

/// `S budget`, without the letter.
fn settle(mut words: Words<'_>) -> Option<Command>
    ensures { result ≡ settle_of words.entry }
{
    let budget = number(words.next()?)?;
    no_more(words)?;
    Some(Command::Settle { budget })
}

/// `R register`, without the letter.
fn look(mut words: Words<'_>) -> Option<Command>
    ensures { result ≡ look_of words.entry }
{
    let register = number(words.next()?)?;
    no_more(words)?;
    Some(Command::Look { register })
}

/// `K place`, without the letter.
fn strike(mut words: Words<'_>) -> Option<Command>
    ensures { result ≡ strike_of words.entry }
{
    let place = number(words.next()?)?;
    no_more(words)?;
    Some(Command::Strike { place })
}

/// `P place x z`, without the letter.
#[inline(always)]
fn partner(mut words: Words<'_>) -> Option<Command>
    ensures { result ≡ partner_of words.entry }
{
    let place = number(words.next()?)?;
    let x = pattern(words.next()?)?;
    let z = pattern(words.next()?)?;
    no_more(words)?;
    Some(Command::Partner { place, x, z })
}

/// None where a further word follows, so that `?` ends the reading of a command.
fn no_more(mut words: Words<'_>) -> Option<()>
    ensures { result ≡ none_left words.entry }
{
    words.next().is_none().then_some(())
}

/// The number of the kind that a word of one letter stands for.
fn kind(word: &[u8]) -> Option<u32>
    ensures { result ≡ kind_of word.now }
{
    match word {
        [letter] => kind_lettered(char::from(*letter)),
        _ => None,
    }
}

/// The number of the kind that a letter stands for: of a sum, a difference or a peak.
fn kind_lettered(letter: char) -> Option<u32>
    ensures { result ≡ kind_by_letter letter }
{
    match letter {
        's' => Some(number_of(Kind::Sum)),
        'd' => Some(number_of(Kind::Difference)),
        'p' => Some(number_of(Kind::Peak)),
        _ => None,
    }
}

/// A kind's number, as a drawn line has it.
fn number_of(kind: Kind) -> u32
    ensures { result ≡ kind_number kind }
{
    u32::from(u8::from(kind))
}
