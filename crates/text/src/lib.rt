// The words of a line of text, and the numbers that words say.
#![tactic(auto)]

ghost use Rattle.std.specs.Prelude.{◌≡◌, ℕ, ◌+◌, ◌≤◌, ◌<◌, true, false, not, length, slice_index};
ghost use Rattle.text.specs.Words.{is_blank, Word};
ghost use Rattle.text.specs.Numbers.{Says};

// Why a word says no number: it is not of decimal digits, or it says one above 65,535.
#[derive(Clone, Copy, Debug, PartialEq, Eq)]
pub enum NotANumber {
    NotDigits,
    Above,
}

// Spaces and tabs stand between words.
fn blank(b: u8) -> bool
    ensures { result ≡ is_blank b }
{
    b == b' ' || b == b'\t'
}

// Every other byte is part of a word.
fn inked(b: u8) -> bool
    ensures { result ≡ not (is_blank b) }
{
    !blank(b)
}

// The first place from `from` on whose byte passes the test, or the line's end.
fn first<F: Fn(u8) -> bool>(line: &[u8], from: usize, test: F) -> usize
    requires from { from ≤ length line.now }
    requires test { F.IsAlwaysCallable test }
    ensures on { from ≤ result }
    ensures within { result ≤ length line.now }
    ensures before { (k : ℕ) → from + k < result → F.post test (slice_index line.now (from + k)) false }
    ensures found { result < length line.now → F.post test (slice_index line.now result) true }
{
    line[from..]
        .iter()
        .position(|b| test(*b))
        .map_or(line.len(), |k| from + k)
}

// Word k of a line, counted from 0. No word is empty: where there are fewer words, an empty part of the line stands for it.
pub fn word(line: &[u8], k: usize) -> &[u8]
    ensures { Word line.now k result.now }
{
    let mut start = first(line, 0, inked);
    for _ in 0..k {
        start = first(line, first(line, start, blank), inked);
    }
    &line[start..first(line, start, blank)]
}

// The number that a word says in decimal digits, if it does and the number is at most 65,535.
pub fn number(word: &[u8]) -> Result<u16, NotANumber>
    ensures { Says word.now result }
{
    if word.is_empty() {
        return Err(NotANumber::NotDigits);
    }
    let mut value: u32 = 0;
    for &digit in word {
        if !digit.is_ascii_digit() {
            return Err(NotANumber::NotDigits);
        }
        // Any larger number is kept as 65,536.
        value = (10 * value + u32::from(digit - b'0')).min(65536);
    }
    u16::try_from(value).map_err(|_| NotANumber::Above)
}
