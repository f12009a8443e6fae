//! Readers of byte slices: a text's words and lines as parts of it, and the words that stand for numbers.

#![tactic(auto)]

ghost use Rattle.std.specs.Prelude.{◌≡◌, ℕ, List, MatchOption, ◌^◌, ◌<◌, ◌≤◌, ◌&&◌, ◌⊎◌, [], ◌∷◌, ◌++◌, length, drop, if◌then◌else◌, Some, None, decimal, ◌==◌, ◌≢◌, nat_lt, slice_index};
ghost use Rattle.std.specs.List.{AllByRecursion, position};
ghost use Rattle.std.specs.Iterator.{YieldsFirstRef, item_count};
ghost use Rattle.words.specs.Lines.{lines};
ghost use Rattle.words.specs.Numbers.{Inverts, led, number_of, numeral, pattern_of, worth, written};
ghost use Rattle.words.specs.Words.{back, front, words, words_left};

use std::marker::Model;

/// Where the first `mark` stands in a text, if one does.
fn place(text: &[u8], mark: u8) -> Option<usize>
    ensures { result ≡ position (λ b. b == mark) text.now }
{
    text.iter().position(|byte| *byte == mark)
}

/// What stands before the first `mark`, and the rest from that mark on, both as parts of the text.
pub fn cut(text: &[u8], mark: u8) -> (&[u8], &[u8])
    ensures front { result.0.now ≡ front mark text.now }
    ensures back { result.1.now ≡ back mark text.now }
    ensures whole { result.0.now ++ result.1.now ≡ text.now }
    ensures clear { AllByRecursion (λ b. b ≢ mark) result.0.now }
    ensures stops { 0 < length result.1.now → slice_index result.1.now 0 ≡ mark }
{
    text.split_at(place(text, mark).unwrap_or(text.len()))
}

/// The word before the first space, and the rest from that space on.
pub fn word(line: &[u8]) -> (&[u8], &[u8])
    ensures word { result.0.now ≡ front 32 line.now }
    ensures rest { result.1.now ≡ back 32 line.now }
{
    cut(line, b' ')
}

/// What stands behind the first byte of a text, if it has one.
fn behind_first(text: &[u8]) -> Option<&[u8]>
    ensures { MatchOption result (text.now ≡ []) (λ rest. (0 < length text.now) × (rest.now ≡ drop 1 text.now)) }
{
    match text {
        [_, rest @ ..] => Some(rest),
        [] => None,
    }
}

/// The line before the first line feed, and the text behind that line feed; an empty text gives two empty parts.
pub fn line(text: &[u8]) -> (&[u8], &[u8])
    ensures line { result.0.now ≡ front 10 text.now }
    ensures rest { result.1.now ≡ drop 1 (back 10 text.now) }
    ensures clear { AllByRecursion (λ b. b ≢ 10) result.0.now }
    ensures whole { (result.0.now ++ (10 ∷ result.1.now) ≡ text.now) ⊎ ((result.0.now ≡ text.now) × (result.1.now ≡ [])) }
    ensures lines { 0 < length text.now → lines text.now ≡ result.0.now ∷ lines result.1.now }
    ensures shorter { 0 < length text.now → length result.1.now < length text.now }
{
    let (line, rest) = cut(text, b'\n');
    (line, behind_first(rest).unwrap_or(rest))
}

/// The lines of a text, without their line feeds.
#[derive(Debug, Drop)]
pub struct Lines<'a> {
    text: &'a [u8],
}

impl<'a> Model for Lines<'a> {
    ghost Value = { List (List ℕ) };

    ghost view = { λ it. lines it.text.now };
}

impl<'a> Lines<'a> {
    /// All lines of a text.
    pub fn new(text: &'a [u8]) -> Self
        ensures { result ≡ lines text.now }
    {
        Lines { text }
    }
}

impl<'a> Iterator for Lines<'a> {
    type Item = &'a [u8];

    ghost next_gives = { YieldsFirstRef (λ left. left) };

    ghost remaining = { item_count (λ left. left) };

    fn next(&mut self) -> Option<&'a [u8]> {
        if self.text.is_empty() {
            return None;
        }
        let (line, text) = line(self.text);
        self.text = text;
        Some(line)
    }
}

/// The words of a line, which stand one space apart.
#[derive(Debug, Drop)]
pub struct Words<'a> {
    // None behind the last word: an empty text is one more word
    text: Option<&'a [u8]>,
}

impl<'a> Model for Words<'a> {
    ghost Value = { List (List ℕ) };

    ghost view = { λ it. words_left it.text };
}

impl<'a> Words<'a> {
    /// All words of a line.
    pub fn new(line: &'a [u8]) -> Self
        ensures { result ≡ words line.now }
    {
        Words { text: Some(line) }
    }
}

impl<'a> Iterator for Words<'a> {
    type Item = &'a [u8];

    ghost next_gives = { YieldsFirstRef (λ left. left) };

    ghost remaining = { item_count (λ left. left) };

    fn next(&mut self) -> Option<&'a [u8]> {
        let (word, rest) = word(self.text?);
        self.text = behind_first(rest);
        Some(word)
    }
}

/// What a digit below the base is worth.
// Inlined, as `digits` is, so that the base is a constant: a command with patterns is read an eighth faster.
#[inline(always)]
fn digit(byte: u8, base: u32) -> Option<u32>
    requires { base ≤ 16 }
    ensures { result ≡ (if nat_lt (worth byte) base then Some (worth byte) else None) }
{
    let worth = match char::from(byte) {
        '0'..='9' => Some(u32::from(byte - b'0')),
        'A'..='F' => Some(u32::from(byte - b'A') + 10),
        _ => None,
    };
    worth.filter(|worth| *worth < base)
}

/// The number that digits of the base write.
#[inline(always)]
fn digits(word: &[u8], base: u32) -> Option<u32>
    requires base { (0 < base) × (base ≤ 16) }
    requires fits { base ^ length word.now ≤ 2 ^ 32 }
    ensures { result ≡ numeral base 0 word.now }
{
    let mut number: u32 = 0;
    for byte in word {
        number = number * base + digit(*byte, base)?;
    }
    Some(number)
}

/// Whether a word has one to five bytes, of which the first is 0 only where it stands alone.
fn sized_as_number(word: &[u8]) -> bool
    ensures { result ≡ (led word.now && nat_lt (length word.now) 6) }
{
    match word {
        [] | [b'0', _, ..] => false,
        _ => word.len() < 6,
    }
}

/// A number of one to five decimal digits without leading zeros. `pattern` beside it has another size and base; both have
/// their digits read by `digits`.
#[tactic(auto, using(crate::proofs::Decimals::number_law))]
pub fn number(word: &[u8]) -> Option<u32>
    ensures value { result ≡ number_of word.now }
    ensures inverts { Inverts decimal 100_000 word.now result }
{
    if sized_as_number(word) {
        digits(word, 10)
    } else {
        None
    }
}

/// A pattern of eight hexadecimal digits, in capitals.
#[tactic(auto, using(crate::proofs::Patterns::pattern_law))]
pub fn pattern(word: &[u8]) -> Option<u32>
    ensures value { result ≡ pattern_of word.now }
    ensures inverts { Inverts written (2 ^ 32) word.now result }
{
    if word.len() == 8 {
        digits(word, 16)
    } else {
        None
    }
}
