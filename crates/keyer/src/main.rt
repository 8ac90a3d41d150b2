// Keys amendments, said in words, to the form on standard input, each to the form that the one before it left, and lists the end as the
// lister does. With -o FILE the end form is written there first.
#![tactic(auto)]

ghost use Rattle.std.specs.Prelude.{◌≤◌};

use answer::{Answer, Counts, Refusal};
use listing::Buffers;
use std::alloc::AllocError;
use std::io;
use std::io::{BufWriter, Write};
use words::{Keying, Meaning, Nonsense};

// Where keying stops: at a refusal, and at which step, counted from 0, where something was to be amended.
#[derive(Clone, Copy)]
struct Stop {
    refusal: Refusal,
    step: Option<usize>,
}

// The form at hand, its length, and the buffers that it is confirmed into.
#[derive(Drop)]
struct Desk {
    image: [u8; 5401],
    got: usize,
    lent: Buffers,
    ghost within: { got ≤ 5401 },
}

impl Desk {
    // Keys every amendment, or filters alone where there is none. Where that is accepted, the end form is at hand.
    fn key(&mut self, words: &[Vec<u8>], amended: bool) -> Result<Counts, Stop> {
        if amended {
            return self.steps(words);
        }
        let answer = filter::filter(
            &self.image[..self.got],
            &mut self.lent.form,
            &mut self.lent.wiring,
            &mut self.lent.segments,
        );
        self.take();
        answer.map_err(|refusal| Stop {
            refusal,
            step: None,
        })
    }

    // Keys from left to right, up to a refusal.
    fn steps(&mut self, words: &[Vec<u8>]) -> Result<Counts, Stop> {
        let mut counts = Counts {
            struck: 0,
            pinned: 0,
        };
        let mut step = 0;
        let mut i = 1;
        while i < words.len() {
            let meaning = words::said(words, i);
            if let Some(
                Meaning::Amendment {
                    kind,
                    first,
                    second,
                },
            ) = meaning
            {
                counts = self.amend(kind, first, second).map_err(|refusal| Stop {
                    refusal,
                    step: Some(step),
                })?;
                self.take();
                step += 1;
            }
            i = words::past(meaning, i, words.len());
        }
        Ok(counts)
    }

    // One step.
    fn amend(&mut self, kind: u16, first: u16, second: u16) -> Answer {
        amend::amend(
            &self.image[..self.got],
            kind,
            first,
            second,
            &mut self.lent.form,
            &mut self.lent.wiring,
            &mut self.lent.segments,
        )
    }

    // Takes the confirmed form to hand.
    fn take(&mut self) {
        layout::put(&self.lent.form, &mut self.image, 0);
    }
}

fn main(rt: HostRuntime) -> io::Result<()> {
    let words = words::all(&rt)?;
    match words::asked(words.as_slice()) {
        Ok(keying) => key(&rt, words.as_slice(), keying),
        Err(Nonsense { word }) => usage(&rt, word),
    }
}

// Says how words are put, and the word from which on they are not.
fn usage(rt: &impl Print, word: usize) -> io::Result<()> {
    println!(rt; "usage: keyer [pin R | strike R | narrow A B | -o FILE].. < FORM; see word {word}")
}

// Keys the amendments to the form that is read here, and lists the end.
fn key(rt: &HostRuntime, words: &[Vec<u8>], keying: Keying) -> io::Result<()> {
    let mut desk = Desk {
        image: [0; 5401],
        got: 0,
        lent: Buffers::new(),
    };
    desk.got = input::read_full(&mut rt.stdin(), &mut desk.image);
    let end = desk.key(words, keying.amended);
    let mut out = BufWriter::new(rt.alloc(), rt.stdout())?;
    match end {
        Ok(counts) => {
            if saved(rt, words, keying.file, &desk.image[..desk.got])? {
                listing::accepted(&mut out, counts, &desk.lent)?;
            }
        }
        Err(Stop { refusal, step }) => {
            listing::refused(&mut out, refusal.number(), refusal.place())?;
            if let Some(step) = step {
                listing::step(&mut out, step)?;
            }
        }
    }
    out.flush()
}

// Whether the form is written where a word names a file for it. A word that is not there names none, as an empty one.
fn saved(
    rt: &HostRuntime,
    words: &[Vec<u8>],
    file: Option<usize>,
    form: &[u8],
) -> Result<bool, AllocError> {
    let Some(file) = file else {
        return Ok(true);
    };
    match words.get(file) {
        Some(word) => words::save(rt, word.as_slice(), form),
        None => words::save(rt, b"", form),
    }
}
