// Writes a form of given fields. Standard input has, in 16 bits each, the number of places, low, high and the buffer's length; then a
// byte for each place; then the run records. The reply goes out on one line, and after it the whole buffer, which held 170 everywhere.
#![tactic(auto)]

use answer::{Range, Refusal};
use layout::word;
use std::io;

// Reads the fields off the input, and writes their form at the start of the buffer. None where the input is too short to say the numbers.
fn written(input: &[u8], buffer: &mut [u8]) -> Option<Result<usize, Refusal>> {
    if input.len() < 8 {
        return None;
    }
    let n = usize::from(word(input[0], input[1])).min(input.len() - 8);
    let size = usize::from(word(input[6], input[7])).min(buffer.len());
    let line = Range {
        low: word(input[2], input[3]),
        high: word(input[4], input[5]),
    };
    let (places, runs) = input[8..].split_at(n);
    Some(writer::write(places, runs, line, &mut buffer[..size]))
}

fn main(rt: HostRuntime) -> io::Result<()> {
    let mut space = [0u8; 6000];
    let mut buffer = [170u8; 6000];
    let got = input::read_full(&mut rt.stdin(), &mut space);
    match written(&space[..got], &mut buffer) {
        Some(Ok(length)) => println!(rt; "written {length}")?,
        Some(Err(refusal)) => println!(rt; "{refusal}")?,
        None => println!(rt; "refused 0 0")?,
    }
    rt.write_all(&buffer)
}
