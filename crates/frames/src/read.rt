// Reading a frame. The size stands beside the bytes: it is the ring's, and no part of them.
ghost use Rattle.std.specs.Prelude.{◌≡◌, ◌≤◌, true, length, map, IfOk, if◌then◌else◌, Ok, Err};
ghost use Rattle.frames.specs.declared.refusal.Refusal.TheVariants.{FieldOutOfRange};
ghost use Rattle.frames.specs.Values.{frame_ok};
ghost use Rattle.frames.specs.Types.{meant, name_of, names_of, frame_of, NamesRest, FrameRest};
ghost use Rattle.frames.specs.Made.{name_for, names_for};
ghost use Rattle.frames.specs.Written.{written};
ghost use Rattle.frames.specs.Reading.{name_in, ranged as ranged_by_rule, read as read_by_rule, read_data as data_by_rule, read_ack as ack_by_rule, read_nack as nack_by_rule};
ghost use Rattle.frames.specs.Laws.{ReadsBack, WritesBack};

use crate::refusal::Refusal;
use crate::types::{Ack, Body, Frame, Message, Nack, Name, Names, RingSize, To};

// The kinds of frames: the first byte of each. Constants and no enum: the reader matches them in place, and Frame is the enum.
pub(crate) const DATA: u8 = 1;

pub(crate) const ACK: u8 = 2;

pub(crate) const NACK: u8 = 3;

fn read_name(size: RingSize, bytes: [u8; 6]) -> Result<Name, Refusal>
    ensures { meant name_of result ≡ name_for size.heads (name_in bytes) }
{
    let [source, a, b, c, d, level] = bytes;
    Name::new(size, source, u32::from_be_bytes([a, b, c, d]), level)
}

fn read_names(size: RingSize, places: &[[u8; 6]]) -> Result<Names, Refusal>
    requires { length places.now ≤ 4 }
    ensures answer { meant names_of result ≡ names_for size.heads (map name_in places.now) }
    ensures rest { IfOk result NamesRest }
{
    let mut names = Names::none();
    for place in places {
        names.push(read_name(size, *place)?);
    }
    Ok(names)
}

fn ranged(size: RingSize, frame: Frame) -> Result<Frame, Refusal>
    ensures ranged { meant frame_of result ≡ ranged_by_rule size.heads true (frame_of frame) }
    ensures answer { result ≡ (if frame_ok size.heads (frame_of frame) then Ok frame else Err FieldOutOfRange) }
{
    if frame.suits(size) {
        Ok(frame)
    } else {
        Err(Refusal::FieldOutOfRange)
    }
}

// rest: what the unused places of a frame hold. Each reader says it, and no type does: a frame that holds other bytes there is
// the same frame, and may be written.
fn read_nack(size: RingSize, bytes: &[u8]) -> Result<Frame, Refusal>
    ensures answer { meant frame_of result ≡ nack_by_rule size.heads bytes.now }
    ensures rest { IfOk result FrameRest }
{
    let &[_, from, to, a, b, c, d] = bytes else {
        return Err(Refusal::NotAFrame);
    };
    ranged(
        size,
        Frame::Nack(Nack {
            from,
            to: To::from(to),
            stamp: u32::from_be_bytes([a, b, c, d]),
        }),
    )
}

fn read_data(size: RingSize, bytes: &[u8]) -> Result<Frame, Refusal>
    ensures answer { meant frame_of result ≡ data_by_rule size.heads bytes.now }
    ensures rest { IfOk result FrameRest }
{
    let Some((front, rest)) = bytes.split_first_chunk::<8>() else {
        return Err(Refusal::NotAFrame);
    };
    let [_, source, a, b, c, d, level, len] = *front;
    if rest.len() != len as usize {
        return Err(Refusal::NotAFrame);
    }
    let name = read_name(size, [source, a, b, c, d, level])?;
    match Body::try_from(rest) {
        Ok(body) => Ok(Frame::Data(Message { name, body })),
        Err(_) => Err(Refusal::FieldOutOfRange),
    }
}

fn read_ack(size: RingSize, bytes: &[u8]) -> Result<Frame, Refusal>
    ensures answer { meant frame_of result ≡ ack_by_rule size.heads bytes.now }
    ensures rest { IfOk result FrameRest }
{
    let Some((front, rest)) = bytes.split_first_chunk::<8>() else {
        return Err(Refusal::NotAFrame);
    };
    let [_, a, b, c, d, issuer, next, count] = *front;
    if rest.len() != 6 * count as usize {
        return Err(Refusal::NotAFrame);
    }
    if count > 4 || issuer >= size.heads || next != size.after(issuer) {
        return Err(Refusal::FieldOutOfRange);
    }
    let (places, _) = rest.as_chunks::<6>();
    let names = read_names(size, places)?;
    let stamp = u32::from_be_bytes([a, b, c, d]);
    ranged(
        size,
        Frame::Ack(Ack {
            stamp,
            issuer,
            names,
        }),
    )
}

// The frame that the bytes are in a ring of this size, or why they are none.
pub fn read(size: RingSize, bytes: &[u8]) -> Result<Frame, Refusal>
    ensures answer { meant frame_of result ≡ read_by_rule size.heads bytes.now }
    ensures rest { IfOk result FrameRest }
    ensures forth { IfOk result (λ f. written size.heads (frame_of f) ≡ bytes.now) }
{
    match bytes {
        [DATA, ..] => read_data(size, bytes),
        [ACK, ..] => read_ack(size, bytes),
        [NACK, ..] => read_nack(size, bytes),
        _ => Err(Refusal::NotAFrame),
    }
}

// Writing and reading undo one another, for every frame and all bytes.
pub fn codec_laws()
    ensures reads_back { ReadsBack }
    ensures writes_back { WritesBack }
{}
