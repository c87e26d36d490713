// The line call.
ghost use Rattle.mrc_line.specs.Line.{Listed};

use crate::write::write_line;
use mrc_instruction::errors::Refusal;
use mrc_instruction::reading::Reading;
use mrc_instruction::widths::WORDS;

// A line's length, and the bytes that it accounts for.
#[derive(Clone, Copy, Debug, PartialEq, Eq)]
pub struct Written {
    pub len: usize,
    pub taken: usize,
}

// The most bytes that an image has: one for each offset.
pub const OFFSETS: usize = WORDS;

// Writes the line at a position of the image, as the reading has it, with its LF, and answers its length and the bytes taken. A refused call changes
// no byte.
pub fn line(image: &[u8], at: usize, reading: Reading, out: &mut [u8]) -> Result<Written, Refusal>
    ensures { Listed reading image.now at out.old result out.new }
{
    if OFFSETS < image.len() {
        return Err(Refusal::ImageTooLong);
    }
    if image.len() < at {
        return Err(Refusal::OutsideInput);
    }
    if image.len() == at {
        return Err(Refusal::EndOfInput);
    }
    write_line(out, image, at, reading)
}
