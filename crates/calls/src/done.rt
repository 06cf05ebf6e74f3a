// Makes what a call did.
ghost use Rattle.std.specs.Prelude.{◌≡◌, None};
ghost use Rattle.store.specs.Look.{put_of};
ghost use Rattle.store.specs.Puts.{puts_of};

use crate::answers::Done;
use frames::types::Frame;
use store::put::frames_there;

impl<A> Done<A> {
    // An answer, with the frame to put, if there is one.
    #[inline]
    pub(crate) fn new(answer: A, frame: Option<Frame>) -> Done<A>
        ensures answer { result.answer ≡ answer }
        ensures puts { puts_of result.puts ≡ put_of frame }
        ensures issued { result.issued ≡ None }
    {
        Done {
            answer,
            puts: frames_there(frame, None, None),
            issued: None,
        }
    }
}
