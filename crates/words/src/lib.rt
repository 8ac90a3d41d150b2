// What a program's words say: files to open or to write, and amendments.
#![tactic(auto)]

ghost use Rattle.std.specs.Prelude.{◌≡◌, ◌+◌, ◌≤◌, ◌<◌, min, length, take, IfSome, IsTrue, ◌↔◌};
ghost use Rattle.words.specs.Length.{words_in};
ghost use Rattle.words.specs.Said.{IsWord, NumberAt, RunAt, NarrowingAt, Means, Asks};

use std::alloc::AllocError;
use std::env::{Env, FillError};
use std::fs::File;
use std::io;
use std::io::Write;

// No word of more bytes says anything, and none of as many names a file.
const LONGEST: usize = 4096;

// What is said from one word on: an amendment, its three numbers; or '-o' and the name of a file.
#[derive(Clone, Copy, Debug, PartialEq, Eq)]
pub enum Meaning {
    Amendment { kind: u16, first: u16, second: u16 },
    File,
}

// What all words ask for: whether something is amended, and the word that names a file, if one does.
#[derive(Clone, Copy, Debug, PartialEq, Eq)]
pub struct Keying {
    pub amended: bool,
    pub file: Option<usize>,
}

// The word from which on nothing is said.
#[derive(Clone, Copy, Debug, PartialEq, Eq)]
pub struct Nonsense {
    pub word: usize,
}

// The words that the program was started with, its name first. One of more than 4,096 bytes has its first 4,097 here. Memory that runs out
// is the only error.
pub fn all<R: Env + AllocGlobal>(rt: &R) -> Result<Vec<Vec<u8>>, AllocError> {
    let mut words = Vec::new(rt.alloc());
    for i in 0..usize::MAX {
        let mut space = [0u8; LONGEST + 1];
        let Some(length) = name(rt, i, &mut space) else {
            break;
        };
        words.push(Vec::from_slice(rt.alloc(), &space[..length])?)?;
    }
    Ok(words)
}

// The length of word i, which is at the start of the space then, where there is such a word; one that is too long fills the space.
fn name(rt: &impl Env, i: usize, space: &mut [u8]) -> Option<usize>
    ensures { IfSome result (λ n. (n ≤ length space.new) × (n ≡ length (take n space.new))) }
{
    match rt.arg(i, space) {
        Ok(length) => Some(length),
        Err(FillError::TooLong) => Some(space.len()),
        Err(FillError::NotPresent) => None,
    }
}

// Opens the file that a word names, or says on standard error why it cannot. Memory that runs out is the only error: the file is not open
// then, and why not is not said.
pub fn open(rt: &HostRuntime, word: &[u8]) -> Result<Option<File>, AllocError> {
    done_or_said(rt, word, path(word).and_then(|path| File::open(rt, path)))
}

// Writes the bytes, and no others, to the file that a word names; false once it has said on standard error why it cannot. Memory that runs
// out is the only error: the file is not written whole then, and why not is not said.
pub fn save(rt: &HostRuntime, word: &[u8], bytes: &[u8]) -> Result<bool, AllocError> {
    Ok(done_or_said(rt, word, written(rt, word, bytes))?.is_some())
}

// What was done with the file that a word names, or none once it is said on standard error why it could not be.
fn done_or_said<T: Drop>(
    rt: &HostRuntime,
    word: &[u8],
    done: io::Result<T>,
) -> Result<Option<T>, AllocError> {
    match done {
        Ok(value) => Ok(Some(value)),
        Err(error) => {
            fail(rt, word, error)?;
            Ok(None)
        }
    }
}

fn written(rt: &HostRuntime, word: &[u8], bytes: &[u8]) -> io::Result<()> {
    File::create(rt, path(word)?)?.write_all(bytes)
}

// The path that a word is. Today's library takes a path as text alone: a word of other bytes names no file, for the system's own reason.
fn path(word: &[u8]) -> io::Result<&str> {
    if LONGEST <= word.len() {
        return Err(io::Error::from_raw_os_error(NAME_TOO_LONG));
    }
    str::from_utf8(word).map_err(|_| io::Error::from_raw_os_error(NOT_TEXT))
}

// Two of the system's numbers for what is wrong, which it has words for.
const NAME_TOO_LONG: i32 = 36;

const NOT_TEXT: i32 = 84;

// Says on standard error what is wrong with the file that a word names: the word, and the system's words for it. Where that cannot be
// said, the program goes on.
fn fail(rt: &HostRuntime, word: &[u8], error: io::Error) -> Result<(), AllocError> {
    let text = error.to_string(rt.alloc())?;
    let mut line = Vec::from_slice(rt.alloc(), &word[..word.len().min(LONGEST)])?;
    line.extend_from_slice(b": ")?;
    line.extend_from_slice(reason(text.as_str()).as_bytes())?;
    line.push(b'\n')?;
    let _said = rt.stderr().write_all(line.as_slice());
    Ok(())
}

// The words of an error, without its number.
fn reason(text: &str) -> &str {
    text.split_once(" (os error ")
        .map_or(text, |(reason, _)| reason)
}

// What all words say, the first being word 1.
pub fn asked(words: &[Vec<u8>]) -> Result<Keying, Nonsense>
    ensures { Asks words.now result }
{
    let mut amended = false;
    let mut file = None;
    let mut i = 1;
    while i < words.len() {
        let meaning = said(words, i).ok_or(Nonsense { word: i })?;
        match meaning {
            Meaning::Amendment { .. } => amended = true,
            Meaning::File if file.is_some() => return Err(Nonsense { word: i }),
            Meaning::File => file = Some(i + 1),
        }
        i = past(Some(meaning), i, words.len());
    }
    Ok(Keying { amended, file })
}

// What is said from word i on, if anything is.
pub fn said(words: &[Vec<u8>], i: usize) -> Option<Meaning>
    requires { i < length words.now }
    ensures { Means words.now i result }
{
    if is(words, i, b"pin") {
        of_run(1, words, i + 1)
    } else if is(words, i, b"strike") {
        of_run(2, words, i + 1)
    } else if is(words, i, b"narrow") {
        narrowing(words, i + 1)
    } else if is(words, i, b"-o") && i + 1 < words.len() {
        Some(Meaning::File)
    } else {
        None
    }
}

// Whether word i is these bytes.
fn is(words: &[Vec<u8>], i: usize, bytes: &[u8]) -> bool
    requires { i < length words.now }
    ensures { IsTrue result ↔ IsWord words.now i bytes.now }
{
    words[i].as_slice() == bytes
}

// A pin or a strike, its run in word i.
fn of_run(kind: u16, words: &[Vec<u8>], i: usize) -> Option<Meaning>
    ensures { RunAt words.now kind i result }
{
    let first = number_at(words, i)?;
    Some(Meaning::Amendment {
        kind,
        first,
        second: 0,
    })
}

// A narrowing, its two counts in word i and the next.
fn narrowing(words: &[Vec<u8>], i: usize) -> Option<Meaning>
    ensures { NarrowingAt words.now i result }
{
    let first = number_at(words, i)?;
    let second = number_at(words, i + 1)?;
    Some(Meaning::Amendment {
        kind: 3,
        first,
        second,
    })
}

// The number that word i says. A word of more than 4,096 bytes says none.
fn number_at(words: &[Vec<u8>], i: usize) -> Option<u16>
    ensures { NumberAt words.now i result }
{
    let word = words.get(i)?;
    if LONGEST < word.len() {
        return None;
    }
    text::number(word.as_slice()).ok()
}

// The word after what is said from word i on, or the end of the words. A narrowing is three words, all else two.
pub fn past(meaning: Option<Meaning>, i: usize, count: usize) -> usize
    requires { i < count }
    ensures value { result ≡ min (i + words_in meaning) count }
    ensures lower_bound { (i < result) × (result ≤ count) }
{
    let words = match meaning {
        Some(Meaning::Amendment { kind: 3, .. }) => 3,
        _ => 2,
    };
    i + words.min(count - i)
}
