// An operand in one machine word, as C reads it: kinds, registers and sizes are numbers there.
ghost use Rattle.mrc_c.specs.Operands.{OperandHeld, fields_of, indirect_fields, immediate_fields, displacement_fields, operand_fields};

use crate::words::{FROM_1, FROM_2, FROM_3, FROM_4, FROM_6};
use mrc_instruction::address::Address;
use mrc_instruction::operand::{AddressingMode, Displacement, Immediate, Operand, OperandSize};
use mrc_instruction::register::{Segment, SizedRegisterEncoding};
use mrc_instruction::signed::{unsigned_byte, unsigned_word};

pub fn fields_word(kind: u8, named: u8, mode: u8, size: u8, value: u16, far_segment: u16) -> u64
    ensures { OperandHeld (fields_of kind named mode size value far_segment) result }
{
    (kind as u64)
        + FROM_1 * (named as u64)
        + FROM_2 * (mode as u64)
        + FROM_3 * (size as u64)
        + FROM_4 * (value as u64)
        + FROM_6 * (far_segment as u64)
}

// (Built into its caller, as that is into its own.)
#[inline(always)]
fn indirect_word(
    segment: Segment,
    mode: AddressingMode,
    displacement: Displacement,
    size: OperandSize,
) -> u64
    ensures { OperandHeld (indirect_fields segment mode displacement size) result }
{
    let named = segment.into();
    let by = mode.into();
    let wide = size.into();
    match displacement {
        Displacement::None => fields_word(2, named, by, wide, 0, 0),
        Displacement::Byte(d) => fields_word(3, named, by, wide, unsigned_byte(d).into(), 0),
        Displacement::Word(d) => fields_word(4, named, by, wide, unsigned_word(d), 0),
    }
}

fn immediate_word(value: Immediate) -> u64
    ensures { OperandHeld (immediate_fields value) result }
{
    match value {
        Immediate::Byte(byte) => fields_word(7, 0, 0, 0, byte.into(), 0),
        Immediate::Word(word) => fields_word(8, 0, 0, 0, word, 0),
    }
}

fn displacement_word(value: Displacement) -> u64
    ensures { OperandHeld (displacement_fields value) result }
{
    match value {
        Displacement::None => fields_word(9, 0, 0, 0, 0, 0),
        Displacement::Byte(d) => fields_word(10, 0, 0, 0, unsigned_byte(d).into(), 0),
        Displacement::Word(d) => fields_word(11, 0, 0, 0, unsigned_word(d), 0),
    }
}

// It is built into its callers: a call reads the operand from memory, into which it has just been copied in other pieces.
#[inline(always)]
pub fn operand_word(operand: Operand) -> u64
    ensures { OperandHeld (operand_fields operand) result }
{
    match operand {
        Operand::Direct(segment, size, offset) => {
            fields_word(1, segment.into(), 0, size.into(), offset, 0)
        }
        Operand::Indirect(segment, size, mode, displacement) => {
            indirect_word(segment, mode, displacement, size)
        }
        Operand::Register(SizedRegisterEncoding(register, size)) => {
            fields_word(5, register.into(), 0, size.into(), 0, 0)
        }
        Operand::Segment(segment) => fields_word(6, segment.into(), 0, 0, 0, 0),
        Operand::Immediate(value) => immediate_word(value),
        Operand::Displacement(value) => displacement_word(value),
        Operand::SegmentAndOffset(Address { segment, offset }) => {
            fields_word(12, 0, 0, 0, offset, segment)
        }
    }
}
