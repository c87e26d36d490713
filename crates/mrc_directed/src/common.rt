// The forms that several opcodes share, destination before source. Those with a ModRM take the operand that it names, its byte and the
// position behind it; the other takes the position behind the opcode.
ghost use Rattle.std.specs.Prelude.{◌≡◌, [], drop};
ghost use Rattle.mrc_instruction.specs.declared.operand.OperandSize.{OperandSize};
ghost use Rattle.mrc_rules.specs.Forms.{immediate_to_accumulator};
ghost use Rattle.mrc_forms.specs.Answers.{read_by, read_behind};
ghost use Rattle.mrc_instruction.specs.Operand.{size_by};
ghost use Rattle.mrc_directed.specs.Common.{register_or_memory_and_register, register_or_memory_and_segment, immediate_to_register_or_memory};

use mrc_forms::answers::decoded;
use mrc_forms::groups::immediate_operation;
use mrc_forms::traits::read_immediate;
use mrc_instruction::instruction::{Instruction, OperandSet};
use mrc_instruction::mrrm::{NamedOperand, reg_field};
use mrc_instruction::operand::{Operand, OperandSize};
use mrc_instruction::operation::Operation;
use mrc_instruction::read::{Read, Stop, counted_from};
use mrc_instruction::register::{RegisterEncoding, Segment, SizedRegisterEncoding};

// Which operand is the destination: the register or segment that reg names, or the register or memory.
#[derive(Clone, Copy, Debug, PartialEq, Eq)]
pub enum Direction {
    RegFirst,
    RegMemFirst,
}

// x x x x x x d w | mod reg r/m
// Each order returns by itself, here and with a segment: operands that are the match's value are put together field by field in every step.
pub fn register_or_memory_and_register(
    operation: Operation,
    direction: Direction,
    size: OperandSize,
    reg_mem: NamedOperand,
    at: usize,
) -> Read<Instruction>
    ensures { result ≡ read_behind (register_or_memory_and_register direction operation) size reg_mem.operand reg_mem.byte at [] }
{
    let register = RegisterEncoding::from_low_bits(reg_mem.byte / 8);
    let reg = Operand::Register(SizedRegisterEncoding(register, size));
    match direction {
        Direction::RegFirst => {
            let operands = OperandSet::DestinationAndSource(reg, reg_mem.operand);
            return Ok(decoded(operation, operands, at));
        }
        Direction::RegMemFirst => {
            let operands = OperandSet::DestinationAndSource(reg_mem.operand, reg);
            return Ok(decoded(operation, operands, at));
        }
    }
}

// 1 0 0 0 1 1 d 0 | mod reg r/m
pub fn register_or_memory_and_segment(
    direction: Direction,
    reg_mem: NamedOperand,
    at: usize,
) -> Read<Instruction>
    ensures { result ≡ read_behind (register_or_memory_and_segment direction) OperandSize.Word reg_mem.operand reg_mem.byte at [] }
{
    let named = Segment::try_from(reg_field(reg_mem.byte));
    let segment = named.map_err(|refusal| Stop { refusal, taken: at })?;
    let seg = Operand::Segment(segment);
    match direction {
        Direction::RegFirst => {
            let operands = OperandSet::DestinationAndSource(seg, reg_mem.operand);
            return Ok(decoded(Operation::MOV, operands, at));
        }
        Direction::RegMemFirst => {
            let operands = OperandSet::DestinationAndSource(reg_mem.operand, seg);
            return Ok(decoded(Operation::MOV, operands, at));
        }
    }
}

// x x x x x x x w | mod reg r/m | data | data if w = 1
pub fn immediate_to_register_or_memory(
    group: u8,
    size: OperandSize,
    destination: NamedOperand,
    s: &[u8],
    at: usize,
) -> Read<Instruction>
    ensures { result ≡ read_behind (immediate_to_register_or_memory group) size destination.operand destination.byte at (drop at s.now) }
{
    let immediate = counted_from(at, read_immediate(size, s, at))?;
    let source = Operand::Immediate(immediate.value);
    let operation = immediate_operation(group, reg_field(destination.byte));
    let operands = OperandSet::DestinationAndSource(destination.operand, source);
    Ok(decoded(operation, operands, immediate.taken))
}

// x x x x x x x w | data | data if w = 1
pub fn immediate_to_accumulator(
    operation: Operation,
    opcode: u8,
    s: &[u8],
    at: usize,
) -> Read<Instruction>
    ensures { result ≡ read_by opcode (immediate_to_accumulator operation (size_by opcode)) at (drop at s.now) }
{
    let size = OperandSize::from_low_bit(opcode);
    let immediate = counted_from(at, read_immediate(size, s, at))?;
    let accumulator = Operand::Register(SizedRegisterEncoding(RegisterEncoding::AlAx, size));
    let source = Operand::Immediate(immediate.value);
    let operands = OperandSet::DestinationAndSource(accumulator, source);
    Ok(decoded(operation, operands, immediate.taken))
}
