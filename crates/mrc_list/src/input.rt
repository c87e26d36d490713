// What the reads of an input come to.
ghost use Rattle.std.specs.Prelude.{◌≡◌};
ghost use Rattle.mrc_list.specs.Input.{wanted_of, after_read};

use mrc_line::line::OFFSETS;
use std::io;
use std::ops::ControlFlow::{self, Break, Continue};

// Where an image begins: its first byte goes there, and its first line starts there.
pub fn start() -> usize
    ensures { result ≡ 0 }
{
    0
}

// Why an input is no image: it is too long for one, or was not to be read.
#[derive(Clone, Copy, Debug, PartialEq, Eq)]
pub enum NotAnImage {
    TooLong,
    Failed,
}

// How many bytes the next read asks for where so many are there: what an image may still have, and one more, so that a byte too many is seen.
pub fn wanted(there: usize) -> usize
    ensures { result ≡ wanted_of there }
{
    (OFFSETS + 1).saturating_sub(there)
}

// What a read's answer comes to where so many bytes are there: so many now, and more may come; or an image of so many bytes, or none.
pub fn after_read(
    there: usize,
    got: io::Result<usize>,
) -> ControlFlow<Result<usize, NotAnImage>, usize>
    ensures { result ≡ after_read there got }
{
    match got {
        Err(_) => Break(Err(NotAnImage::Failed)),
        Ok(more) if OFFSETS < there.saturating_add(more) => Break(Err(NotAnImage::TooLong)),
        Ok(0) => Break(Ok(there)),
        Ok(more) => Continue(there + more),
    }
}
