// The names of registers and segments.
ghost use Rattle.std.specs.Prelude.{◌≡◌, ◌+◌, ◌≤◌, length};
ghost use Rattle.mrc_line.specs.Text.{Put};
ghost use Rattle.mrc_line.specs.Operands.{register_text, segment_text};

use crate::text::put_bytes;
use mrc_instruction::operand::OperandSize;
use mrc_instruction::register::{RegisterEncoding, Segment, SizedRegisterEncoding};

// The names by size and field, those of the bytes first.
const REGISTERS: &[[[u8; 2]; 8]; 2] = &[
    [
        *b"AL", *b"CL", *b"DL", *b"BL", *b"AH", *b"CH", *b"DH", *b"BH",
    ],
    [
        *b"AX", *b"CX", *b"DX", *b"BX", *b"SP", *b"BP", *b"SI", *b"DI",
    ],
];

fn register_name(encoding: RegisterEncoding, size: OperandSize) -> [u8; 2]
    ensures { result ≡ register_text encoding size }
{
    REGISTERS[size as usize][encoding as usize]
}

// (Four names by one number: as a table they are no plainer.)
fn segment_name(segment: Segment) -> [u8; 2]
    ensures { result ≡ segment_text segment }
{
    match segment {
        Segment::ES => *b"ES",
        Segment::CS => *b"CS",
        Segment::SS => *b"SS",
        Segment::DS => *b"DS",
    }
}

// A register's name, by its size.
pub fn put_register(buf: &mut [u8], at: usize, register: SizedRegisterEncoding) -> usize
    requires { at + 2 ≤ length buf.old }
    ensures { Put 2 buf.old at (register_text register.0 register.1) buf.new result }
{
    let name = register_name(register.0, register.1);
    put_bytes(buf, at, &name)
}

// A segment's name. (As a register's, of another table: one function of the two letters would be `put_bytes`.)
pub fn put_segment(buf: &mut [u8], at: usize, segment: Segment) -> usize
    requires { at + 2 ≤ length buf.old }
    ensures { Put 2 buf.old at (segment_text segment) buf.new result }
{
    let name = segment_name(segment);
    put_bytes(buf, at, &name)
}
