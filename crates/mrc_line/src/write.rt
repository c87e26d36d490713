// A line at a position that is within the image, written whole or not at all.
ghost use Rattle.std.specs.Prelude.{◌<◌, ◌≤◌, length, Ok};
ghost use Rattle.mrc_line.specs.Target.{offsets};
ghost use Rattle.mrc_line.specs.Line.{Listed, longest};

use crate::line::Written;
use crate::page::Page;
use crate::roomy::roomy_lines;
use crate::step::{put_body, put_head, step_taken};
use crate::text::put_byte;
use mrc_decoder::decode::decode_instruction;
use mrc_instruction::errors::Refusal;
use mrc_instruction::reading::Reading;

// The prefix bytes that a line may have, and the room that any line fits into.
const BUDGET: u8 = 15;

pub const LONGEST: usize = 93;

// The line of what decodes at a position, put at the start of a buffer that has room for any. (That the image is no longer than the offsets, and the position
// within it, is asked by each function here: `Listed` and `Paged` speak of both, and a type of the two, made in `line` and `write_page`, is no plainer.)
pub fn write_step(out: &mut [u8], image: &[u8], at: usize, reading: Reading) -> Written
    requires { (longest ≤ length out.old) × (length image.now ≤ offsets) × (at < length image.now) }
    ensures { Listed reading image.now at out.old (Ok result) out.new }
{
    let answer = decode_instruction(image, at, BUDGET, reading);
    let taken = step_taken(answer);
    let next = at + taken;
    let offset = at as u16;
    let a = put_head(out, 0, offset, &image[at..next]);
    let b = put_body(out, a, offset, image[at], answer, reading);
    let len = put_byte(out, b, b'\n');
    Written { len, taken }
}

// A line where `out` may be too short: it is made in a buffer of the function's own, and all of it is copied or none.
pub fn write_short(
    out: &mut [u8],
    image: &[u8],
    at: usize,
    reading: Reading,
) -> Result<Written, Refusal>
    requires { (length image.now ≤ offsets) × (at < length image.now) }
    ensures { Listed reading image.now at out.old result out.new }
{
    let mut buf = [0u8; LONGEST];
    let Page { len, next } = roomy_lines(&mut buf, image, at, reading);
    if out.len() < len {
        return Err(Refusal::NoRoom);
    }
    out[..len].copy_from_slice(&buf[..len]);
    let taken = next - at;
    Ok(Written { len, taken })
}

// A line at a position that is within the image, written whole or not at all.
pub fn write_line(
    out: &mut [u8],
    image: &[u8],
    at: usize,
    reading: Reading,
) -> Result<Written, Refusal>
    requires { (length image.now ≤ offsets) × (at < length image.now) }
    ensures { Listed reading image.now at out.old result out.new }
{
    if out.len() < LONGEST {
        return write_short(out, image, at, reading);
    }
    Ok(write_step(out, image, at, reading))
}
