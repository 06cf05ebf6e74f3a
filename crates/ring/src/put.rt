// Putting frames on a link.
ghost use Rattle.std.specs.Prelude.{◌≡◌, ◌<◌, true, map};
ghost use mathlib.Core.List.{Memᴰ};
ghost use Rattle.frames.specs.Values.{Frame as MFrame, frame_ok};
ghost use Rattle.frames.specs.Types.{frame_of};
ghost use Rattle.frames.specs.Written.{written};
ghost use Rattle.links.specs.Meaning.{AfterPut};
ghost use Rattle.store.specs.Puts.{puts_of};
ghost use Rattle.ring.specs.Ring.{AfterPuts};
ghost use Rattle.ring.specs.Moves.{answer_in, puts_in};

use calls::answers::Done;
use frames::refusal::Refusal;
use frames::types::{Frame, RingSize};
use frames::write::pack;
use links::link::Link;
use store::types::Frames;

// The link and the size come apart from their ring here: as methods of the ring these would owe that its heads stay.

// Puts one frame, as a packet.
fn put_one<L: Link>(link: &mut L, size: RingSize, frame: Frame)
    requires { frame_ok size.heads (frame_of frame) ≡ true }
    ensures { AfterPut (written size.heads (frame_of frame)) (L.waits link.old) (L.waits link.new) }
{
    match pack(size, frame) {
        Ok(packet) => link.put(packet),
        Err(_) => unreachable(),
    }
}

// Puts the frames of a call, in their order.
fn put_all<L: Link>(link: &mut L, size: RingSize, puts: Frames)
    requires { (f : MFrame) → Memᴰ f (puts_of puts) → frame_ok size.heads f ≡ true }
    ensures { AfterPuts (map (written size.heads) (puts_of puts)) (L.waits link.old) (L.waits link.new) }
{
    for frame in puts.as_slice() {
        put_one(link, size, *frame);
    }
}

// Puts what a call left to put, and answers what it answered.
pub(crate) fn send<L: Link, T>(
    link: &mut L,
    size: RingSize,
    done: Result<Done<T>, Refusal>,
) -> Result<T, Refusal>
    requires { (f : MFrame) → Memᴰ f (puts_in done) → frame_ok size.heads f ≡ true }
    ensures answer { result ≡ answer_in done }
    ensures puts { AfterPuts (map (written size.heads) (puts_in done)) (L.waits link.old) (L.waits link.new) }
{
    let Done {
        answer,
        puts,
        issued: _,
    } = done?;
    put_all(link, size, puts);
    Ok(answer)
}
