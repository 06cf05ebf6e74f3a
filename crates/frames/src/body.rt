// Bodies and packets from bytes.
ghost use Rattle.std.specs.Prelude.{◌≡◌, ◌≤◌, length};
ghost use Rattle.frames.specs.Types.{body_of, BodyRest};
ghost use Rattle.frames.specs.Made.{BodyFrom, PacketFrom};

use crate::refusal::Refusal;
use crate::table::Table;
use crate::types::{Body, Packet};

// One to eight bytes.
impl TryFrom<&[u8]> for Body {
    type Error = Refusal;

    ghost try_from_gives = { λ bytes r. BodyFrom bytes.now r };

    fn try_from(bytes: &[u8]) -> Result<Body, Refusal> {
        match bytes.len() {
            1..=8 => Ok(Body::copied(bytes)),
            _ => Err(Refusal::BadBodyLength),
        }
    }
}

impl Body {
    fn copied(bytes: &[u8]) -> Body
        requires { (1 ≤ length bytes.now) × (length bytes.now ≤ 8) }
        ensures bytes { body_of result ≡ bytes.now }
        ensures rest { BodyRest result }
    {
        let Table { places, count } = Table::<u8, 8>::copied(0, bytes);
        Body {
            bytes: places,
            len: count as u8,
        }
    }

    pub fn as_slice(&self) -> &[u8]
        ensures { result.now ≡ body_of self.now }
    {
        &self.bytes[..self.len as usize]
    }
}

// At most 32 bytes. An impl beside that of Body and no generic one: the bounds and the refusals differ.
impl TryFrom<&[u8]> for Packet {
    type Error = Refusal;

    ghost try_from_gives = { λ bytes r. PacketFrom bytes.now r };

    fn try_from(bytes: &[u8]) -> Result<Packet, Refusal> {
        if bytes.len() > 32 {
            return Err(Refusal::NotAFrame);
        }
        Ok(Table::copied(0, bytes))
    }
}
