// What a line of text is: a frame, or why it is none.
ghost use Rattle.std.specs.Prelude.{◌≡◌, IfOk};
ghost use Rattle.account.specs.Lines.{line_of, line_for};

use crate::hex::parse;
use frames::read::read;
use frames::refusal::Refusal;
use frames::types::{Frame, RingSize};
use std::alloc::{AllocError, Global};
use thiserror::Error;

// Why a line is no frame.
#[derive(Clone, Copy, PartialEq, Eq, Debug, Error)]
pub enum LineError {
    #[error("not base-sixteen text")]
    NotHex,
    #[error("refused, {}: {}", .0.number(), .0)]
    Refused(Refusal),
}

// The frame that the text writes in base sixteen, as heard in a ring of this size. Only memory fails the reading of a line.
pub fn read_line(
    size: RingSize,
    text: &[u8],
    heap: Global,
) -> Result<Result<Frame, LineError>, AllocError>
    ensures { IfOk result (λ l. line_of l ≡ line_for size.heads text.now) }
{
    let Some(bytes) = parse(text, heap)? else {
        return Ok(Err(LineError::NotHex));
    };
    Ok(read(size, bytes.as_slice()).map_err(LineError::Refused))
}
