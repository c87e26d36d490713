// What is written for an input: the pages of its listing, one after the other, or that it is too long.
ghost use Rattle.std.specs.Prelude.{◌≡◌};
ghost use Rattle.mrc_list.specs.Listing.{Turned, too_long_text};

use mrc_instruction::reading::Reading;
use mrc_line::page::{Page, write_page};

// The line that stands for the listing of an input that is too long.
pub fn too_long() -> [u8; 9]
    ensures { result ≡ too_long_text }
{
    *b"TOO LONG\n"
}

// Makes the page that starts at a position of the image, while the image has a byte there; behind the last one there is none.
pub fn next_page(image: &[u8], at: usize, out: &mut [u8]) -> Option<Page>
    ensures { Turned image.now at out.old result out.new }
{
    if at < image.len() {
        return Some(write_page(image, at, Reading::One, out));
    }
    None
}
