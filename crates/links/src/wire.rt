// Wire: each head has a queue of 32 packets.
ghost use Rattle.std.specs.Prelude.{◌≡◌, ◌≤◌, [], map, drop};
ghost use Rattle.frames.specs.Tables.{items};
ghost use Rattle.frames.specs.Types.{packet_of};
ghost use Rattle.links.specs.Meaning.{AfterPut, AfterTake, Cleared};
ghost use Rattle.links.specs.Wire.{oldest, put_wire, taken_wire, take_wire, clear_wire};
ghost use Rattle.links.specs.Types.{taken_of, queue_of, wire_of, wire_waits};

use crate::link::Link;
use crate::types::{Queue, Wire, empty_packet};
use frames::table::Table;
use frames::types::{Packet, RingSize};

// So many queues, each empty. A bare count and no RingSize: before the first clear there are none.
fn empty_queues(heads: usize) -> Table<Queue, 8>
    requires { heads ≤ 8 }
    ensures { map queue_of (items result) ≡ clear_wire heads }
{
    let queue = Table::empty(empty_packet());
    Table {
        places: [queue; 8],
        count: heads,
    }
}

// Removes the oldest packet.
fn leave(queue: &mut Queue) -> Option<Packet>
    ensures answer { taken_of result ≡ oldest (queue_of queue.old) }
    ensures after { queue_of queue.new ≡ drop 1 (queue_of queue.old) }
{
    queue.remove(0)
}

// Joins the end of each queue; a full one stays as it is.
fn join_each(queues: &mut Table<Queue, 8>, packet: Packet)
    ensures { map queue_of (items queues.new) ≡ put_wire (packet_of packet) (map queue_of (items queues.old)) }
{
    let used = &mut queues.places[0..queues.count];
    for queue in used.iter_mut() {
        queue.push(packet);
    }
}

// Removes the oldest packet of a head's queue.
fn leave_at(queues: &mut Table<Queue, 8>, head: usize) -> Option<Packet>
    ensures answer { taken_of result ≡ taken_wire head (map queue_of (items queues.old)) }
    ensures after { map queue_of (items queues.new) ≡ take_wire head (map queue_of (items queues.old)) }
{
    let known = &mut queues.places[0..queues.count];
    if head < known.len() {
        leave(&mut known[head])
    } else {
        None
    }
}

impl Wire {
    // Before the first clear there are no heads.
    pub fn new() -> Wire
        ensures { wire_of result ≡ [] }
    {
        Wire {
            queues: empty_queues(0),
        }
    }
}

impl Link for Wire {
    ghost waits = { wire_waits };

    #[tactic(auto, using(crate::proofs::WireMeanings::put_keeps_meaning))]
    fn put(&mut self, packet: Packet)
        ensures meaning { AfterPut (packet_of packet) (wire_waits self.old) (wire_waits self.new) }
        ensures after { wire_of self.new ≡ put_wire (packet_of packet) (wire_of self.old) }
    {
        join_each(&mut self.queues, packet);
    }

    #[tactic(auto, using(crate::proofs::WireMeanings::taken_waited, crate::proofs::WireMeanings::left_waited))]
    fn take(&mut self, head: u8) -> Option<Packet>
        ensures meaning { AfterTake head (taken_of result) (wire_waits self.old) (wire_waits self.new) }
        ensures answer { taken_of result ≡ taken_wire head (wire_of self.old) }
        ensures after { wire_of self.new ≡ take_wire head (wire_of self.old) }
    {
        leave_at(&mut self.queues, usize::from(head))
    }

    #[tactic(auto, using(crate::proofs::WireMeanings::clear_keeps_meaning))]
    fn clear(&mut self, size: RingSize)
        ensures meaning { Cleared (wire_waits self.new) }
        ensures after { wire_of self.new ≡ clear_wire size.heads }
    {
        self.queues = empty_queues(usize::from(size.heads));
    }
}
