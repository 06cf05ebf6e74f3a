// The frames that one call puts.
ghost use Rattle.std.specs.Prelude.{◌≡◌, ◌+◌, ◌≤◌, [], ◌++◌, length};
ghost use Rattle.store.specs.Look.{put_of};
ghost use Rattle.store.specs.Puts.{puts_of};

use crate::types::Frames;
use frames::table::Table;
use frames::types::{Frame, Nack, To};

// Fills a place of Frames that is not used.
const UNUSED: Frame = Frame::Nack(Nack {
    from: 0,
    to: To::Everyone,
    stamp: 1,
});

// A function of its own beside Names::none: its filler is another.
pub fn no_frames() -> Frames
    ensures { puts_of result ≡ [] }
{
    Table::empty(UNUSED)
}

// One frame more, if there is one.
#[inline]
fn add(frames: &mut Frames, frame: Option<Frame>)
    requires { length (puts_of frames.old) + length (put_of frame) ≤ 3 }
    ensures { puts_of frames.new ≡ puts_of frames.old ++ put_of frame }
{
    if let Some(frame) = frame {
        frames.push(frame);
    }
}

// Those of three frames that are there, in this order.
#[inline]
pub fn frames_there(first: Option<Frame>, second: Option<Frame>, third: Option<Frame>) -> Frames
    ensures { puts_of result ≡ put_of first ++ (put_of second ++ put_of third) }
{
    let mut frames = no_frames();
    add(&mut frames, first);
    add(&mut frames, second);
    add(&mut frames, third);
    frames
}
