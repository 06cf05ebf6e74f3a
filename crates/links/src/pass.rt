// What is known of packets over any link, foreign ones too.
ghost use Rattle.frames.specs.Types.{packet_of};
ghost use Rattle.links.specs.Meaning.{AfterPut};
ghost use Rattle.links.specs.Passing.{Came};
ghost use Rattle.links.specs.Types.{taken_of};

use crate::link::Link;
use frames::types::Packet;

// Puts a packet, and then takes for a head until one comes, so many times at most.
pub fn pass<L: Link>(link: &mut L, packet: Packet, head: u8, tries: u8) -> Option<Packet>
    ensures came { Came (packet_of packet) head (taken_of result) (L.waits link.old) }
    ensures left { AfterPut (packet_of packet) (L.waits link.old) (L.waits link.new) }
{
    link.put(packet);
    // No index: a chain whose closure changes the link says nothing of what is left on it.
    for _ in 0..tries {
        if let Some(found) = link.take(head) {
            return Some(found);
        }
    }
    None
}
