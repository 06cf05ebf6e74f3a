// Reads frames as base-sixteen text, one to a line, and prints what each is in a van of so many heads.
#![tactic(auto)]

use account::line::read_line;
use account::show::Entry;
use account::tally::{Sort, Tally};
use anyhow::{anyhow, bail};
use frames::types::RingSize;
use std::env;
use std::io::{BufRead, BufReader};

const USAGE: &str = "usage: inspect HEADS < FRAMES, with 2 to 8 heads";

// The only argument, as the number of heads.
fn size_asked(rt: &HostRuntime) -> anyhow::Result<RingSize> {
    let mut args = env::args(rt)?.skip(1);
    let (Some(heads), None) = (args.next(), args.next()) else {
        bail!(USAGE);
    };
    let heads = heads.parse::<u8>().map_err(|_| anyhow!(USAGE))?;
    RingSize::try_from(heads).map_err(|refusal| anyhow!("{heads} heads: {refusal}"))
}

fn run(rt: &HostRuntime) -> anyhow::Result<()> {
    let size = size_asked(rt)?;
    let heap = rt.alloc();
    let mut tally = Tally::new();
    let texts = BufReader::new(heap, rt.stdin())?.split(heap, b'\n');
    for (number, text) in (1..=u64::MAX).zip(texts) {
        let line = read_line(size, text?.as_slice(), heap)?;
        tally.add(Sort::from(line));
        println!(rt; "{}", Entry { number, size, line })?;
    }
    println!(rt; "{tally}")?;
    Ok(())
}

// What stops the program is printed with its name, and ends it with status 1.
fn main(rt: HostRuntime) -> anyhow::Result<()> {
    run(&rt).map_err(|error| anyhow!("inspect: {error}"))
}
