// The given answers: in reading 1 of the Rust that the decoder follows, and in reading 2 of an account made from that Rust's answers. Each line of
// standard input is a reading, a budget, a position, the record of the answer but for its third operand, and the input, in hex digits. Says how many
// agree with the decoder's answers, and the line of each that does not.
#![tactic(auto)]

mod hex;
mod line;
mod stored;

use crate::line::{Line, Lines};
use crate::stored::{ROOM, empty_room, read_full};

fn differs(rt: &impl Print, line: Line<'_>) {
    let _ = rt.write_all(b"differs: ");
    let _ = rt.write_all(line.text);
    let _ = rt.write_all(b"\n");
}

fn compare_all(rt: &impl Print, stored: &[u8]) {
    let mut agree: u64 = 0;
    let mut differ: u64 = 0;
    for line in Lines(stored) {
        if line.agrees() {
            agree += 1;
        } else {
            differ += 1;
            differs(rt, line);
        }
    }
    let _ = println!(rt; "{agree} agree, {differ} differ");
}

fn main(rt: HostRuntime) {
    let mut room = empty_room::<ROOM>();
    compare_all(&rt, read_full(&mut rt.reader(), &mut room));
}
