// Lines, as long as a buffer has room for any.
ghost use Rattle.std.specs.Prelude.{◌≤◌, length};
ghost use Rattle.mrc_line.specs.Target.{offsets};
ghost use Rattle.mrc_line.specs.Page.{Roomy};

use crate::page::Page;
use crate::write::{LONGEST, write_step};
use mrc_instruction::reading::Reading;

pub fn roomy_lines(out: &mut [u8], image: &[u8], at: usize, reading: Reading) -> Page
    requires { length image.now ≤ offsets }
    ensures { Roomy reading image.now at out.old result out.new }
{
    let mut len = 0;
    let mut next = at;
    if out.len() < LONGEST {
        return Page { len, next };
    }
    let last = out.len() - LONGEST;
    while next < image.len() && len <= last {
        let line = write_step(&mut out[len..], image, next, reading);
        len += line.len;
        next += line.taken;
    }
    Page { len, next }
}
