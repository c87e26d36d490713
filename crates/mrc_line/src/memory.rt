// The text of operands in memory: `WORD ES:[1234]`, `BYTE DS:[BX+SI-80]`.
ghost use Rattle.std.specs.Prelude.{◌≡◌, ◌+◌, ◌≤◌, ◌++◌, length};
ghost use Rattle.mrc_line.specs.Text.{Put, hex4, bytes};
ghost use Rattle.mrc_line.specs.Operands.{size_text, segment_text, mode_text, displacement_text, zeros_text, offset_text, memory_text, sign_of};

use crate::registers::put_segment;
use crate::text::{put_byte, put_bytes, put_hex2, put_hex4};
use mrc_instruction::operand::{AddressingMode, Displacement, OperandSize};
use mrc_instruction::reading::Reading;
use mrc_instruction::register::Segment;

// A size and its space.
fn put_size(buf: &mut [u8], at: usize, size: OperandSize) -> usize
    requires { at + 5 ≤ length buf.old }
    ensures { Put 5 buf.old at (size_text size) buf.new result }
{
    match size {
        OperandSize::Byte => put_bytes(buf, at, b"BYTE "),
        OperandSize::Word => put_bytes(buf, at, b"WORD "),
    }
}

fn put_mode(buf: &mut [u8], at: usize, mode: AddressingMode) -> usize
    requires { at + 5 ≤ length buf.old }
    ensures { Put 5 buf.old at (mode_text mode) buf.new result }
{
    match mode {
        AddressingMode::BxSi => put_bytes(buf, at, b"BX+SI"),
        AddressingMode::BxDi => put_bytes(buf, at, b"BX+DI"),
        AddressingMode::BpSi => put_bytes(buf, at, b"BP+SI"),
        AddressingMode::BpDi => put_bytes(buf, at, b"BP+DI"),
        AddressingMode::Si => put_bytes(buf, at, b"SI"),
        AddressingMode::Di => put_bytes(buf, at, b"DI"),
        AddressingMode::Bp => put_bytes(buf, at, b"BP"),
        AddressingMode::Bx => put_bytes(buf, at, b"BX"),
    }
}

// The sign that is printed, which the library has in no method.
fn sign(d: i16) -> u8
    ensures { result ≡ sign_of d }
{
    if d < 0 { b'-' } else { b'+' }
}

// A displacement within brackets: its sign, and its absolute value in hex digits.
pub fn put_displacement(buf: &mut [u8], at: usize, displacement: Displacement) -> usize
    requires { at + 5 ≤ length buf.old }
    ensures { Put 5 buf.old at (displacement_text displacement) buf.new result }
{
    match displacement {
        Displacement::None => at,
        Displacement::Byte(d) => {
            let o = put_byte(buf, at, sign(d as i16));
            put_hex2(buf, o, d.unsigned_abs())
        }
        Displacement::Word(d) => {
            let o = put_byte(buf, at, sign(d));
            put_hex4(buf, o, d.unsigned_abs())
        }
    }
}

// Where it is None: in reading 2 the zero bytes that were written. (`written` and `reading` come this far together and have nothing else in common.)
fn put_zeros(buf: &mut [u8], at: usize, written: u8, reading: Reading) -> usize
    requires { at + 5 ≤ length buf.old }
    ensures { Put 5 buf.old at (zeros_text reading written) buf.new result }
{
    match reading {
        Reading::One => at,
        Reading::Two => match written {
            1 => put_bytes(buf, at, b"+00"),
            2 => put_bytes(buf, at, b"+0000"),
            _ => at,
        },
    }
}

// A displacement within brackets, or the zero bytes written in its place.
fn put_offset(
    buf: &mut [u8],
    at: usize,
    displacement: Displacement,
    written: u8,
    reading: Reading,
) -> usize
    requires { at + 5 ≤ length buf.old }
    ensures { Put 5 buf.old at (offset_text reading written displacement) buf.new result }
{
    match displacement {
        Displacement::None => put_zeros(buf, at, written, reading),
        _ => put_displacement(buf, at, displacement),
    }
}

// What stands before the address: the size, the segment and the bracket.
fn put_opening(buf: &mut [u8], at: usize, size: OperandSize, segment: Segment) -> usize
    requires { at + 9 ≤ length buf.old }
    ensures { Put 9 buf.old at (size_text size ++ (segment_text segment ++ bytes ":[")) buf.new result }
{
    let s = put_size(buf, at, size);
    let c = put_segment(buf, s, segment);
    put_bytes(buf, c, b":[")
}

pub fn put_direct(
    buf: &mut [u8],
    at: usize,
    segment: Segment,
    offset: u16,
    size: OperandSize,
) -> usize
    requires { at + 14 ≤ length buf.old }
    ensures { Put 14 buf.old at (memory_text size segment (hex4 offset)) buf.new result }
{
    let o = put_opening(buf, at, size, segment);
    let c = put_hex4(buf, o, offset);
    put_byte(buf, c, b']')
}

// (The fields of an Indirect, as a match gives them: a struct would stand within `Operand`, whose cases promises name.)
pub fn put_indirect(
    buf: &mut [u8],
    at: usize,
    segment: Segment,
    mode: AddressingMode,
    displacement: Displacement,
    size: OperandSize,
    written: u8,
    reading: Reading,
) -> usize
    requires { at + 20 ≤ length buf.old }
    ensures { Put 20 buf.old at (memory_text size segment (mode_text mode ++ offset_text reading written displacement)) buf.new result }
{
    let o = put_opening(buf, at, size, segment);
    let m = put_mode(buf, o, mode);
    let c = put_offset(buf, m, displacement, written, reading);
    put_byte(buf, c, b']')
}
