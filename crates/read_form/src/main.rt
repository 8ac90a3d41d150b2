// Shows what reading finds in the form on standard input: its fields, one to a line, or the refusal.
#![tactic(auto)]

use layout::{RUN, Run};
use reader::Form;
use std::io;

fn show_places(rt: &impl Print, places: &[u8]) -> io::Result<()> {
    for (k, supply) in places.iter().enumerate() {
        println!(rt; "place {k} {supply}")?;
    }
    Ok(())
}

fn show_runs(rt: &impl Print, runs: &[u8]) -> io::Result<()> {
    for r in 0..runs.len() / RUN {
        let Run { u, v, state } = layout::run_at(runs, r);
        println!(rt; "run {r} {u} {v} {state}")?;
    }
    Ok(())
}

fn main(rt: HostRuntime) -> io::Result<()> {
    let mut space = [0u8; 5401];
    let got = input::read_full(&mut rt.stdin(), &mut space);
    let image = &space[..got];
    match reader::read(image) {
        Ok(Form { places, runs, line }) => {
            println!(rt; "form {places} {runs} {} {}", line.low, line.high)?;
            show_places(&rt, reader::place_section(image))?;
            show_runs(&rt, reader::run_section(image))
        }
        Err(refusal) => println!(rt; "{refusal}"),
    }
}
