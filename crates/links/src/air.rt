// Air: 16 places that the heads share, and choices that lose, repeat and reorder packets.
ghost use Rattle.std.specs.Prelude.{◌≡◌, ◌+◌, ◌%◌, ◌<◌, ◌≤◌, [], map, length, replicate, Some, MatchOption, slice_index};
ghost use Rattle.std.specs.List.{range_with_len};
ghost use Rattle.links.specs.Air.{has as among, without, is_empty, blank, room, added, choice_of, oldest_for, newest_for, picked, packet_at, stopped, taken_by, new_air, put_air, taken_air, take_air, clear_air};
ghost use Rattle.links.specs.Types.{heads_of, taken_of, place_of, places_of, air_of, air_waits};
ghost use Rattle.frames.specs.Tables.{items};
ghost use Rattle.frames.specs.Types.{packet_of};
ghost use Rattle.links.specs.Meaning.{AfterPut, AfterTake, Cleared};

use crate::link::Link;
use crate::types::{Air, Choice, Choices, HeadSet, Place, Places, empty_packet};
use frames::table::Table;
use frames::types::{Packet, RingSize};

impl HeadSet {
    // The first heads, as many as are asked for. A bare count and no RingSize, here and in add: before the first clear there are
    // no heads.
    fn first(heads: usize) -> HeadSet
        requires { heads ≤ 8 }
        ensures { heads_of result ≡ range_with_len 0 heads }
    {
        let mut flags = [false; 8];
        flags[0..heads].fill(true);
        HeadSet { flags }
    }

    fn has(&self, head: usize) -> bool
        ensures { result ≡ among head (heads_of self.now) }
    {
        self.flags.get(head).is_some_and(|flag| *flag)
    }

    fn remove(&mut self, head: usize)
        ensures { heads_of self.new ≡ without head (heads_of self.old) }
    {
        if head < self.flags.len() {
            self.flags[head] = false;
        }
    }

    fn is_empty(&self) -> bool
        ensures { result ≡ is_empty (heads_of self.now) }
    {
        !self.flags.contains(&true)
    }
}

// The place of the oldest packet that waits for a head.
fn oldest(places: &[Place], head: usize) -> Option<usize>
    ensures answer { result ≡ oldest_for head (map place_of places.now) }
    ensures within { MatchOption result (⊥ → ⊥) (λ i. i < length places.now) }
{
    places.iter().position(|place| place.heads.has(head))
}

// The place of the newest one: the library has a method for each direction.
fn newest(places: &[Place], head: usize) -> Option<usize>
    ensures answer { result ≡ newest_for head (map place_of places.now) }
    ensures within { MatchOption result (⊥ → ⊥) (λ i. i < length places.now) }
{
    places.iter().rposition(|place| place.heads.has(head))
}

impl Places {
    fn empty() -> Places
        ensures places { places_of result ≡ [] }
        ensures free { map place_of result.table.places ≡ replicate 16 blank }
    {
        let free = Place {
            packet: empty_packet(),
            heads: HeadSet::first(0),
        };
        Places {
            table: Table::empty(free),
        }
    }

    // Into full air a put drops the oldest packet.
    fn make_room(&mut self)
        ensures after { places_of self.new ≡ room (places_of self.old) }
        ensures within { length (places_of self.new) < 16 }
    {
        if self.table.count == 16 {
            self.table.remove(0);
        }
    }

    // A packet that waits for no head takes no place.
    fn add(&mut self, packet: Packet, heads: usize)
        requires { heads ≤ 8 }
        ensures { places_of self.new ≡ added heads (packet_of packet) (places_of self.old) }
    {
        self.make_room();
        let heads = HeadSet::first(heads);
        if !heads.is_empty() {
            self.table.push(Place { packet, heads });
        }
    }

    // The packet waits for the head no more; a place that waits for none is free.
    fn stop(&mut self, i: usize, head: usize)
        requires { i < self.old.table.count }
        ensures { places_of self.new ≡ stopped head (places_of self.old) (Some i) }
    {
        let table = &mut self.table;
        let mut place = table.as_slice()[i];
        place.heads.remove(head);
        if place.heads.is_empty() {
            table.remove(i);
        } else {
            table.places[i] = place;
        }
    }

    // The place whose packet the choice picks for the head.
    fn pick(&self, choice: Choice, head: usize) -> Option<usize>
        ensures answer { result ≡ picked choice head (places_of self.now) }
        ensures within { MatchOption result (⊥ → ⊥) (λ i. i < self.now.table.count) }
    {
        let places = self.table.as_slice();
        match choice {
            Choice::Newest => newest(places, head),
            _ => oldest(places, head),
        }
    }

    // Hands out the packet that the choice picks for the head.
    fn hand_out(&mut self, choice: Choice, head: usize) -> Option<Packet>
        ensures answer { taken_of result ≡ packet_at (places_of self.old) (picked choice head (places_of self.old)) }
        ensures after { places_of self.new ≡ taken_by choice head (places_of self.old) (picked choice head (places_of self.old)) }
    {
        let i = self.pick(choice, head)?;
        let packet = self.table.as_slice()[i].packet;
        if choice != Choice::Repeated {
            self.stop(i, head);
        }
        Some(packet)
    }
}

impl From<u8> for Choice {
    ghost from_gives = { λ byte choice. choice ≡ choice_of byte };

    fn from(byte: u8) -> Choice {
        match byte {
            1 => Choice::Lost,
            2 => Choice::Repeated,
            3 => Choice::Newest,
            _ => Choice::Plain,
        }
    }
}

impl Choices {
    // The choice for this put or take; the next one comes after it, and the first after the last.
    fn use_one(&mut self) -> Choice
        ensures answer { result ≡ choice_of (slice_index self.old.bytes self.old.turn) }
        ensures bytes { self.new.bytes ≡ self.old.bytes }
        ensures turn { self.new.turn ≡ (self.old.turn + 1) % 16 }
    {
        let byte = self.bytes[self.turn];
        self.turn = (self.turn + 1) % 16;
        byte.into()
    }
}

impl Air {
    // Before the first clear there are no heads.
    pub fn new(choices: [u8; 16]) -> Air
        ensures { air_of result ≡ new_air choices }
    {
        Air {
            places: Places::empty(),
            choices: Choices {
                bytes: choices,
                turn: 0,
            },
            heads: 0,
        }
    }
}

impl Link for Air {
    ghost waits = { air_waits };

    #[tactic(auto, using(crate::proofs::AirMeanings::added_waited))]
    fn put(&mut self, packet: Packet)
        ensures meaning { AfterPut (packet_of packet) (air_waits self.old) (air_waits self.new) }
        ensures after { air_of self.new ≡ put_air (packet_of packet) (air_of self.old) }
    {
        if self.choices.use_one() != Choice::Lost {
            self.places.add(packet, self.heads);
        }
    }

    #[tactic(auto, using(crate::proofs::AirMeanings::taken_waited, crate::proofs::AirMeanings::left_waited))]
    fn take(&mut self, head: u8) -> Option<Packet>
        ensures meaning { AfterTake head (taken_of result) (air_waits self.old) (air_waits self.new) }
        ensures answer { taken_of result ≡ taken_air head (air_of self.old) }
        ensures after { air_of self.new ≡ take_air head (air_of self.old) }
    {
        let choice = self.choices.use_one();
        let head = usize::from(head);
        if head < self.heads {
            self.places.hand_out(choice, head)
        } else {
            None
        }
    }

    fn clear(&mut self, size: RingSize)
        ensures meaning { Cleared (air_waits self.new) }
        ensures after { air_of self.new ≡ clear_air size.heads (air_of self.old) }
    {
        self.places = Places::empty();
        self.heads = usize::from(size.heads);
    }
}
