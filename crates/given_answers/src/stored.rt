// The room for the stored answers.
ghost use Rattle.std.specs.Prelude.{◌≡◌, ◌≤◌, length};

use std::io::Read;

// The most bytes that the stored answers have.
pub const ROOM: usize = 560000;

// A room of so many bytes, with nothing in it. Its size is a parameter: the checker would write an array of that many bytes out.
pub fn empty_room<const N: usize>() -> [u8; N]
    ensures { length result ≡ N }
{
    [0; N]
}

// Reads until the room is full, the input ends or a read fails, and answers what was read. The loop is written out, since the library's `read_to_end` reads
// into memory of the heap.
pub fn read_full<'a>(from: &mut impl Read, room: &'a mut [u8]) -> &'a [u8]
    ensures { length result.now ≤ length room.old }
{
    let mut there = 0;
    while let Ok(more @ 1..) = from.read(&mut room[there..]) {
        there += more;
    }
    &room[..there]
}
