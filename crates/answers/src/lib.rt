//! The answers to a script's commands, and their text.

#![tactic(auto)]

ghost use Rattle.std.specs.Prelude.{◌≡◌, ◌+◌, ◌<◌, ◌≤◌, [], ◌∷◌, ◌++◌, decimal, is_ok, if◌then◌else◌, length, Some, string_bytes};
ghost use Rattle.answers.specs.Texts.{line_of, reply_of, state_text, text_of};
ghost use Rattle.words.specs.Numbers.{glyph_of, written};

use arrayvec::ArrayString;
use catalogue::types::Refusal;
use promise::Shown;
use sheet::table::Outcome;
use std::alloc::AllocError;
use std::fmt;

/// What a command is answered.
#[derive(Clone, Copy, Debug, PartialEq, Eq)]
pub enum Answer {
    Done,
    /// A refusal is an answer, and no failure.
    Declined(Refusal),
    Stepped { outcome: Outcome, steps: u32 },
    Shown(Shown),
    Partner(Option<u32>),
}

/// A text that is put together in place, since that needs no memory.
type Text = ArrayString<ROOM>;

/// Room for any answer's line, in bytes: the longest is two patterns and `settled`, with 26.
const ROOM: usize = 32;

/// Appends the answer's line to `out`, which stays as it was where memory is short.
pub fn write(out: &mut String, answer: Answer) -> Result<(), AllocError>
    ensures { string_bytes out.new ≡ (if is_ok result then string_bytes out.old ++ line_of (reply_of answer) else string_bytes out.old) }
{
    let mut line = Text::new();
    answer.put(&mut line);
    line.push_str("\n");
    out.push_str(line.as_str())
}

impl fmt::Display for Answer {
    ghost output = { λ a. Some (text_of (reply_of a)) };

    fn fmt<W: fmt::Write>(&self, f: &mut fmt::Formatter<W>) -> fmt::Result {
        let mut text = Text::new();
        self.put(&mut text);
        f.write_str(text.as_str())
    }
}

impl Answer {
    /// Puts the text of the answer into an empty one.
    #[tactic(auto, using(crate::proofs::Lengths::ten_digits))]
    fn put(&self, text: &mut Text)
        requires { text.old.bytes ≡ [] }
        ensures value { text.new.bytes ≡ text_of (reply_of self.now) }
        ensures short { length text.new.bytes < ROOM }
    {
        match *self {
            Answer::Done => text.push_str("ok"),
            Answer::Declined(refusal) => {
                text.push_str("no ");
                push_number(text, u32::from(u8::from(refusal)));
            }
            Answer::Stepped { outcome, steps } => {
                text.push_str(outcome.name());
                text.push_str(" ");
                push_number(text, steps);
            }
            Answer::Shown(Shown { low, high, settled }) => {
                push_pattern(text, low);
                text.push_str(" ");
                push_pattern(text, high);
                text.push_str(" ");
                text.push_str(state(settled));
            }
            Answer::Partner(None) => text.push_str("none"),
            Answer::Partner(Some(pattern)) => push_pattern(text, pattern),
        }
    }
}

/// How a look names the sheet's state.
fn state(settled: bool) -> &'static str
    ensures { result.now ≡ state_text settled }
{
    if settled { "settled" } else { "open" }
}

/// Appends a number in decimal digits, without leading zeros.
#[tactic(auto, using(std::proofs::lemmas::Fmt::decimal_digit))]
fn push_number(text: &mut Text, number: u32)
    requires { length text.old.bytes + length (decimal number) ≤ ROOM }
    ensures { text.new.bytes ≡ text.old.bytes ++ decimal number }
{
    if number < 10 {
        push_digit(text, number);
    } else {
        push_number(text, number / 10);
        push_digit(text, number % 10);
    }
}

/// Appends a pattern in eight hexadecimal digits, the highest first.
fn push_pattern(text: &mut Text, pattern: u32)
    requires { length text.old.bytes + 8 ≤ ROOM }
    ensures { text.new.bytes ≡ text.old.bytes ++ written pattern }
{
    push_digit(text, pattern >> 28);
    push_digit(text, (pattern >> 24) & 15);
    push_digit(text, (pattern >> 20) & 15);
    push_digit(text, (pattern >> 16) & 15);
    push_digit(text, (pattern >> 12) & 15);
    push_digit(text, (pattern >> 8) & 15);
    push_digit(text, (pattern >> 4) & 15);
    push_digit(text, pattern & 15);
}

/// Appends a digit, decimal or hexadecimal, where letters are capitals.
fn push_digit(text: &mut Text, worth: u32)
    requires digit { worth < 16 }
    requires room { length text.old.bytes < ROOM }
    ensures digit { text.new.bytes ≡ text.old.bytes ++ glyph_of worth ∷ [] }
    ensures room { length text.new.bytes ≡ length text.old.bytes + 1 }
{
    let first = if worth < 10 { b'0' } else { b'A' - 10 };
    text.push(char::from(first + worth as u8));
}
