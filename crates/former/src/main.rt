// Writes the form that the plain text on standard input says. What is wrong with the text, and a refusal of the writer, is one line on
// standard error, and then nothing is written.
#![tactic(auto)]

ghost use Rattle.std.specs.Prelude.{◌≤◌, length};

use answer::Refusal;
use items::Fields;
use std::io;

// What the writer's refusal means.
fn meaning(refusal: Refusal) -> &'static str {
    match refusal {
        Refusal::WrongNumbers =>
            "there is no place, or more than 256 places, or more than 1,024 runs",
        Refusal::BadPlace { .. } => "the place's byte is above 1",
        Refusal::BadRun { .. } => "the run's ends are not two of the places, the smaller one first",
        Refusal::RepeatedRun { .. } => "the run has the ends of an earlier run",
        Refusal::LowAboveHigh => "low is above high",
        _ => "there is no room for the form",
    }
}

// Writes the form of these fields.
fn write(rt: &(impl Print + Eprint), fields: Fields) -> io::Result<()> {
    let mut form = [0u8; 5400];
    match writer::write(fields.places, fields.runs, fields.line, &mut form) {
        Ok(length) => rt.write_all(&form[..length.min(5400)]),
        Err(refusal) => eprintln!(rt; "{refusal}: {}", meaning(refusal)),
    }
}

// Writes the form that a text says.
fn form(rt: &(impl Print + Eprint), text: &[u8]) -> io::Result<()>
    requires { length text.now ≤ 65536 }
{
    let mut places = [0u8; 257];
    let mut runs = [0u8; 5125];
    match items::gather(text, &mut places, &mut runs) {
        Ok(fields) => write(rt, fields),
        Err(error) => eprintln!(rt; "{error}"),
    }
}

fn main(rt: HostRuntime) -> io::Result<()> {
    let mut space = [0u8; 65537];
    let got = input::read_full(&mut rt.stdin(), &mut space);
    if 65536 < got {
        return eprintln!(rt; "the text is longer than 65,536 bytes");
    }
    form(&rt, &space[..got])
}
