// Lists forms: the confirmed form with its first wiring and segment numbers, or the refusal. Each word names a file with one form; with no
// words the form is on standard input.
#![tactic(auto)]

use listing::Buffers;
use std::io;
use std::io::{BufWriter, Read, Write};

fn main(rt: HostRuntime) -> io::Result<()> {
    let words = words::all(&rt)?;
    if words.len() < 2 {
        list(&rt, &mut rt.stdin())?;
    }
    for word in words.iter().skip(1) {
        list_word(&rt, word.as_slice())?;
    }
    Ok(())
}

// Lists the form in the file that a word names, where that can be opened.
fn list_word(rt: &HostRuntime, word: &[u8]) -> io::Result<()> {
    let Some(mut file) = words::open(rt, word)? else {
        return Ok(());
    };
    list(rt, &mut file)
}

// Lists the form that is read here.
fn list<R: Read>(rt: &HostRuntime, input: &mut R) -> io::Result<()> {
    let mut space = [0u8; 5401];
    let mut lent = Buffers::new();
    let got = input::read_full(input, &mut space);
    let answer = filter::filter(
        &space[..got],
        &mut lent.form,
        &mut lent.wiring,
        &mut lent.segments,
    );
    let mut out = BufWriter::new(rt.alloc(), rt.stdout())?;
    match answer {
        Ok(counts) => listing::accepted(&mut out, counts, &lent)?,
        Err(refusal) => listing::refused(&mut out, refusal.number(), refusal.place())?,
    }
    out.flush()
}
