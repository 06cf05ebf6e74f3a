// A foreign link: it keeps every packet, and hands out for any head whichever it likes.
ghost use Rattle.std.specs.Prelude.{◌≡◌, []};
ghost use Rattle.links_cases.specs.Hoards.{hoard_of, waiting_hoard};

use crate::types::Hoard;
use frames::table::Table;
use frames::types::{Packet, RingSize};
use links::link::Link;

impl Hoard {
    pub(crate) fn new() -> Hoard
        ensures { hoard_of result ≡ [] }
    {
        Hoard {
            packets: Table::empty(Table::empty(0)),
            whim: 0,
        }
    }
}

impl Link for Hoard {
    ghost waits = { waiting_hoard };

    fn put(&mut self, packet: Packet) {
        self.packets.push(packet);
    }

    fn take(&mut self, head: u8) -> Option<Packet> {
        self.whim = self.whim.wrapping_add(7);
        let packets = self.packets.as_slice();
        let i = (usize::from(self.whim) + usize::from(head)).checked_rem(packets.len())?;
        packets.get(i).copied()
    }

    fn clear(&mut self, size: RingSize) {
        self.packets.count = 0;
    }
}
