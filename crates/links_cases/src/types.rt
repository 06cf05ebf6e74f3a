// What a hoard keeps.
use frames::table::Table;
use frames::types::Packet;

// The packets put since the last clear, as long as there is space, and where it looks next.
#[derive(Clone, Copy)]
pub struct Hoard {
    pub(crate) packets: Table<Packet, 64>,
    pub(crate) whim: u8,
}
