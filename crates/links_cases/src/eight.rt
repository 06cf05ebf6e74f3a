// At eight heads exactly every queue and every place works as at seven.
use crate::{clear, packet};
use links::link::Link;
use links::types::{Air, Wire};
use std::process::Abort;

// Clears for so many heads and puts more packets than fit.
fn fill<L: Link>(link: &mut L, heads: u8) {
    clear(link, heads);
    for number in 0..40u8 {
        link.put(packet(&[number]));
    }
}

// How many of 40 takes for a head hand something out.
fn taken<L: Link>(link: &mut L, head: u8) -> usize {
    (0..40u8).filter_map(|_| link.take(head)).count()
}

// Each head takes so many, and the head past the last none.
fn each_takes<L: Link>(rt: &impl Abort, link: &mut L, heads: u8, most: usize) {
    fill(link, heads);
    for head in 0..heads {
        assert_eq!(rt; taken(link, head), most);
    }
    assert_eq!(rt; taken(link, heads), 0);
}

#[test]
fn every_queue_works(rt: HostRuntime) {
    let mut wire = Wire::new();
    each_takes(&rt, &mut wire, 7, 32);
    each_takes(&rt, &mut wire, 8, 32);
}

#[test]
fn every_place_works(rt: HostRuntime) {
    let mut air = Air::new([0; 16]);
    each_takes(&rt, &mut air, 7, 16);
    each_takes(&rt, &mut air, 8, 16);
}
