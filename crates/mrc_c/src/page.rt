// The page call for C and Rust.
ghost use Rattle.mrc_c.specs.Readings.{reading_of};
ghost use Rattle.mrc_c.specs.Page.{PageWritten};

use crate::readings::reading_of;
use mrc_instruction::widths::DOUBLE_WORDS;
use mrc_line::page::write_page;

// Writes as many whole lines as fit, and answers the length of their text and 4,294,967,296 times the bytes of the image that they account for.
pub fn mrc_page(image: &[u8], at: usize, reading: u8, out: &mut [u8]) -> u64
    ensures { PageWritten (reading_of reading) image.now at out.old result out.new }
{
    let page = write_page(image, at, reading_of(reading), out);
    let len = page.len;
    let next = page.next;
    let taken = next - at;
    (len as u64) + (DOUBLE_WORDS as u64) * (taken as u64)
}
