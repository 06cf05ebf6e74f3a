// Writing frames. The size stands beside the frame and the memory: it is the ring's, and no part of them.
ghost use Rattle.std.specs.Prelude.{◌≡◌, ℕ, ◌+◌, ◌*◌, ◌<◌, ◌≤◌, true, length, take, is_ok, IfOk, if◌then◌else◌, Ok};
ghost use Rattle.std.proofs.Math.Seq.{paste};
ghost use Rattle.frames.specs.Values.{frame_ok, data_frame, ack_frame, nack_frame};
ghost use Rattle.frames.specs.Types.{meant, asked_of, message_meant, ack_meant, packet_of, frame_of, PacketRest};
ghost use Rattle.frames.specs.Written.{written, write_answer, pack_answer, front_written};
ghost use Rattle.frames.specs.Reading.{read};

use crate::read::{ACK, DATA, NACK};
use crate::refusal::Refusal;
use crate::types::{Ack, Frame, Message, Nack, Packet, RingSize};

// Copies the bytes into out from `at` on.
fn put(out: &mut [u8], at: usize, bytes: &[u8])
    requires { at + length bytes.now ≤ length out.old }
    ensures { out.new ≡ paste out.old at bytes.now (length bytes.now) }
{
    out[at..at + bytes.len()].copy_from_slice(bytes);
}

impl Message {
    fn write(&self, out: &mut [u8])
        requires { 8 + self.now.body.len ≤ length out.old }
        ensures { (n : ℕ) → out.new ≡ front_written n (data_frame (message_meant self.now)) out.old }
    {
        let [source, a, b, c, d, level] = self.name.to_bytes();
        put(out, 0, &[DATA, source, a, b, c, d, level, self.body.len]);
        put(out, 8, self.body.as_slice());
    }
}

impl Ack {
    fn write(&self, size: RingSize, out: &mut [u8])
        requires { 8 + 6 * self.now.names.count ≤ length out.old }
        ensures { out.new ≡ front_written size.heads (ack_frame (ack_meant self.now)) out.old }
    {
        let [a, b, c, d] = self.stamp.to_be_bytes();
        let next = size.after(self.issuer);
        let count = self.names.count as u8;
        put(out, 0, &[ACK, a, b, c, d, self.issuer, next, count]);
        // By place: the library says nothing of what chunks that are lent to be written end as.
        for (i, name) in self.names.as_slice().iter().enumerate() {
            put(out, 8 + 6 * i, &name.to_bytes());
        }
    }
}

impl Nack {
    fn write(&self, out: &mut [u8])
        requires { 7 ≤ length out.old }
        ensures { (n : ℕ) → out.new ≡ front_written n (nack_frame self.now.from (asked_of self.now.to) self.now.stamp) out.old }
    {
        let [a, b, c, d] = self.stamp.to_be_bytes();
        put(out, 0, &[NACK, self.from, u8::from(self.to), a, b, c, d]);
    }
}

// That the frame is in range is asked and held by no type: it goes by the ring's size, and a frame that is not must be refused.
fn write_front(size: RingSize, frame: Frame, out: &mut [u8])
    requires room { length (written size.heads (frame_of frame)) ≤ length out.old }
    requires suits { frame_ok size.heads (frame_of frame) ≡ true }
    ensures { out.new ≡ front_written size.heads (frame_of frame) out.old }
{
    match frame {
        Frame::Data(message) => message.write(out),
        Frame::Ack(ack) => ack.write(size, out),
        Frame::Nack(nack) => nack.write(out),
    }
}

// Writes the frame at the front of out, as a ring of this size sends it, and answers its length. The memory is the caller's, since
// there is no heap.
pub fn write(size: RingSize, frame: Frame, out: &mut [u8]) -> Result<usize, Refusal>
    ensures answer { result ≡ write_answer size.heads (frame_of frame) (length out.old) }
    ensures after { out.new ≡ (if is_ok result then front_written size.heads (frame_of frame) out.old else out.old) }
    ensures back { is_ok result ≡ true → read size.heads (take (length (written size.heads (frame_of frame))) out.new) ≡ Ok (frame_of frame) }
{
    let len = frame.len();
    if out.len() < len {
        return Err(Refusal::MemoryTooShort);
    }
    if !frame.suits(size) {
        return Err(Refusal::FieldOutOfRange);
    }
    write_front(size, frame, out);
    Ok(len)
}

fn packed(size: RingSize, frame: Frame) -> Packet
    requires { frame_ok size.heads (frame_of frame) ≡ true }
    ensures bytes { packet_of result ≡ written size.heads (frame_of frame) }
    ensures rest { PacketRest result }
    ensures back { read size.heads (packet_of result) ≡ Ok (frame_of frame) }
{
    let count = frame.len();
    let mut places = [0; 32];
    write_front(size, frame, &mut places);
    Packet { places, count }
}

// The frame as a packet, for a link to carry.
pub fn pack(size: RingSize, frame: Frame) -> Result<Packet, Refusal>
    ensures answer { meant packet_of result ≡ pack_answer size.heads (frame_of frame) }
    ensures rest { IfOk result PacketRest }
    ensures back { IfOk result (λ p. read size.heads (packet_of p) ≡ Ok (frame_of frame)) }
{
    if frame.suits(size) {
        Ok(packed(size, frame))
    } else {
        Err(Refusal::FieldOutOfRange)
    }
}
