// The line call for C and Rust.
ghost use Rattle.mrc_c.specs.Readings.{reading_of};
ghost use Rattle.mrc_c.specs.Line.{LineWritten};

use crate::readings::reading_of;
use mrc_instruction::widths::{DOUBLE_WORDS, WORDS};
use mrc_line::line::{Written, line};

// Writes a line, and answers its length and 65,536 times the bytes taken; or 4,294,967,296 times the refusal's number, nothing being written.
pub fn mrc_line(image: &[u8], at: usize, reading: u8, out: &mut [u8]) -> u64
    ensures { LineWritten (reading_of reading) image.now at out.old result out.new }
{
    match line(image, at, reading_of(reading), out) {
        Ok(Written { len, taken }) => {
            ((len % WORDS) as u64) + (WORDS as u64) * ((taken % WORDS) as u64)
        }
        Err(refusal) => (DOUBLE_WORDS as u64) * (refusal.number() as u64),
    }
}
