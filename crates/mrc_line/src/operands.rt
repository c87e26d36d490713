// The text of operands, the destination before the source. Each is of an instruction with so many displacement bytes written.
ghost use Rattle.std.specs.Prelude.{◌+◌, ◌≤◌, ◌++◌, length};
ghost use Rattle.mrc_line.specs.Text.{Put, bytes, hex4};
ghost use Rattle.mrc_line.specs.Printed.{alone, beside};
ghost use Rattle.mrc_line.specs.Operands.{immediate_text, signed_text, printed_text, operand_text, operands_text};

use crate::memory::{put_direct, put_displacement, put_indirect};
use crate::printed::{Origin, Printed, alone};
use crate::registers::{put_register, put_segment};
use crate::text::{put_byte, put_bytes, put_hex2, put_hex4};
use mrc_instruction::address::Address;
use mrc_instruction::instruction::OperandSet;
use mrc_instruction::operand::{Displacement, Immediate, Operand};
use mrc_instruction::operation::Operation;
use mrc_instruction::reading::Reading;

// Two or four digits.
fn put_immediate(buf: &mut [u8], at: usize, immediate: Immediate) -> usize
    requires { at + 4 ≤ length buf.old }
    ensures { Put 4 buf.old at (immediate_text immediate) buf.new result }
{
    match immediate {
        Immediate::Byte(b) => put_hex2(buf, at, b),
        Immediate::Word(w) => put_hex4(buf, at, w),
    }
}

// `SSSS:OOOO`.
fn put_address(buf: &mut [u8], at: usize, address: Address) -> usize
    requires { at + 9 ≤ length buf.old }
    ensures { Put 9 buf.old at (hex4 address.segment ++ (bytes ":" ++ hex4 address.offset)) buf.new result }
{
    let s = put_hex4(buf, at, address.segment);
    let c = put_byte(buf, s, b':');
    put_hex4(buf, c, address.offset)
}

// A displacement with its sign, and none as +00.
fn put_signed(buf: &mut [u8], at: usize, displacement: Displacement) -> usize
    requires { at + 5 ≤ length buf.old }
    ensures { Put 5 buf.old at (signed_text displacement) buf.new result }
{
    match displacement {
        Displacement::None => put_bytes(buf, at, b"+00"),
        _ => put_displacement(buf, at, displacement),
    }
}

// What is printed for a displacement.
fn put_printed(buf: &mut [u8], at: usize, printed: Printed) -> usize
    requires { at + 5 ≤ length buf.old }
    ensures { Put 5 buf.old at (printed_text printed) buf.new result }
{
    match printed {
        Printed::Word(w) => put_hex4(buf, at, w),
        Printed::Signed(displacement) => put_signed(buf, at, displacement),
    }
}

// An operand beside another.
fn put_operand(buf: &mut [u8], at: usize, written: u8, reading: Reading, operand: Operand) -> usize
    requires { at + 20 ≤ length buf.old }
    ensures { Put 20 buf.old at (operand_text reading written beside operand) buf.new result }
{
    match operand {
        Operand::Direct(segment, size, offset) => put_direct(buf, at, segment, offset, size),
        Operand::Indirect(segment, size, mode, displacement) => {
            put_indirect(buf, at, segment, mode, displacement, size, written, reading)
        }
        Operand::Register(register) => put_register(buf, at, register),
        Operand::Segment(segment) => put_segment(buf, at, segment),
        Operand::Immediate(immediate) => put_immediate(buf, at, immediate),
        Operand::Displacement(displacement) => put_signed(buf, at, displacement),
        Operand::SegmentAndOffset(address) => put_address(buf, at, address),
    }
}

// The same: a register, as most operands are, without a further call. (One function for both takes 17 instructions a line more.)
#[inline(always)]
fn put_beside(buf: &mut [u8], at: usize, written: u8, reading: Reading, operand: Operand) -> usize
    requires { at + 20 ≤ length buf.old }
    ensures { Put 20 buf.old at (operand_text reading written beside operand) buf.new result }
{
    match operand {
        Operand::Register(register) => put_register(buf, at, register),
        _ => put_operand(buf, at, written, reading, operand),
    }
}

// A sole operand.
fn put_alone(
    buf: &mut [u8],
    at: usize,
    operation: Operation,
    origin: Origin,
    reading: Reading,
    sole: Operand,
) -> usize
    requires { at + 20 ≤ length buf.old }
    ensures { Put 20 buf.old at (operand_text reading origin.written (alone operation origin.start origin.taken) sole) buf.new result }
{
    match sole {
        Operand::Displacement(displacement) => {
            put_printed(buf, at, alone(operation, origin, displacement))
        }
        _ => put_beside(buf, at, origin.written, reading, sole),
    }
}

// A space and the operands, joined by a comma and a space.
pub fn put_operands(
    buf: &mut [u8],
    at: usize,
    operation: Operation,
    origin: Origin,
    reading: Reading,
    operands: OperandSet,
) -> usize
    requires { at + 43 ≤ length buf.old }
    ensures { Put 43 buf.old at (operands_text reading origin.written operation origin.start origin.taken operands) buf.new result }
{
    let written = origin.written;
    match operands {
        OperandSet::None => at,
        OperandSet::Destination(destination) => {
            let d = put_byte(buf, at, b' ');
            put_alone(buf, d, operation, origin, reading, destination)
        }
        OperandSet::DestinationAndSource(destination, source) => {
            let d = put_byte(buf, at, b' ');
            let c = put_beside(buf, d, written, reading, destination);
            let s = put_bytes(buf, c, b", ");
            put_beside(buf, s, written, reading, source)
        }
    }
}
