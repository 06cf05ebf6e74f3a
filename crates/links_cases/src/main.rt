// Runs calls on wire, air and a hoard, one to a line, and prints what each take and pass answers.
#![tactic(auto)]

ghost use Rattle.std.specs.Prelude.{◌≡◌, take};
ghost use Rattle.frames.specs.Types.{packet_of};

#[cfg(test)]
mod eight;
mod hoard;
mod types;

use frames::table::Table;
use frames::types::{Packet, RingSize};
use links::link::Link;
use links::pass::pass;
use links::types::{Air, Wire};
use std::alloc::{AllocError, Global};
use std::{array, fmt};
use types::Hoard;

// A packet of the bytes, the first 32 of them at most.
fn packet(bytes: &[u8]) -> Packet
    ensures { packet_of result ≡ take 32 bytes.now }
{
    Table::copied(0, bytes)
}

// Clears, if the number of heads is a ring's.
fn clear<L: Link>(link: &mut L, heads: u8) {
    if let Ok(size) = RingSize::try_from(heads) {
        link.clear(size);
    }
}

// What a take or a pass answers; a put and a clear answer nothing. The step goes by the script's word:
// a closure for each word would hold these arms alone.
fn call<L: Link>(link: &mut L, word: &str, numbers: &[u8]) -> Option<Packet> {
    match (word, numbers) {
        ("clear", [heads, ..]) => {
            clear(link, *heads);
            None
        }
        ("put", bytes) => {
            link.put(packet(bytes));
            None
        }
        ("take", [head, ..]) => link.take(*head),
        ("pass", [head, tries, bytes @ ..]) => pass(link, packet(bytes), *head, *tries),
        _ => None,
    }
}

// The numbers of a line; its words are passed over.
fn numbers(heap: Global, line: &str) -> Result<Vec<u8>, AllocError> {
    line.split_whitespace()
        .filter_map(|word| word.parse().ok())
        .collect(heap)
}

// The first 16 numbers, and 0 for those that are missing.
fn choices(numbers: &[u8]) -> [u8; 16] {
    array::from_fn(|i| numbers.get(i).copied().unwrap_or(0))
}

// An answer as it is printed.
#[derive(Clone, Copy)]
struct Answer(Option<Packet>);

impl fmt::Display for Answer {
    fn fmt<W: fmt::Write>(&self, f: &mut fmt::Formatter<W>) -> fmt::Result {
        match self.0 {
            None => write!(f, "nothing"),
            Some(packet) => write!(f, "{:?}", packet.as_slice()),
        }
    }
}

fn main(rt: HostRuntime) -> anyhow::Result<()> {
    let heap = rt.alloc();
    let mut wire = Wire::new();
    let mut air = Air::new([0; 16]);
    let mut hoard = Hoard::new();
    for line in rt.lines(heap) {
        let line = line?;
        let found = numbers(heap, &line)?;
        let mut words = line.as_str().split_whitespace();
        let link = words.next().unwrap_or("");
        let word = words.next().unwrap_or("");
        // Each by its own type: a dyn link cannot stand for the type parameter of pass.
        let answer = match link {
            "wire" => call(&mut wire, word, &found),
            "air" => call(&mut air, word, &found),
            "choices" => {
                air = Air::new(choices(&found));
                None
            }
            _ => call(&mut hoard, word, &found),
        };
        if matches!(word, "take" | "pass") {
            println!(rt; "{}", Answer(answer))?;
        }
    }
    Ok(())
}
