// A page: as many whole lines as fit into a buffer.
ghost use Rattle.mrc_line.specs.Page.{Paged};

use crate::line::OFFSETS;
use crate::roomy::roomy_lines;
use crate::write::write_short;
use mrc_instruction::reading::Reading;

// How many bytes were written, and the position at which the next line starts. (A count and no slice, for C, and for callers who go on with the buffer; a
// line's answer alike.)
#[derive(Clone, Copy, Debug, PartialEq, Eq)]
pub struct Page {
    pub len: usize,
    pub next: usize,
}

// Writes as many whole lines as fit, from a position of the image on, as the reading has them.
// (It and `roomy_lines` loop by position, since a line says where the next one starts. One loop over `line`, which refuses at the end, has a second call
// of the step writer: 26 instructions a line more. The refusal is a case of a `match`, since the proof speaks of it, and a
// `let` with `else` has no name for it.)
pub fn write_page(image: &[u8], at: usize, reading: Reading, out: &mut [u8]) -> Page
    ensures { Paged reading image.now at out.old result out.new }
{
    if OFFSETS < image.len() {
        return Page { len: 0, next: at };
    }
    let Page { mut len, mut next } = roomy_lines(out, image, at, reading);
    while next < image.len() {
        match write_short(&mut out[len..], image, next, reading) {
            Ok(line) => {
                len += line.len;
                next += line.taken;
            }
            Err(_) => break,
        }
    }
    Page { len, next }
}
