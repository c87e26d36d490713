// The forms with no operand or one. Each takes the position behind the opcode, or behind its ModRM. Those that read once are three lines each, a reader, a
// case and an operation: one function over these three would be no plainer.
ghost use Rattle.std.specs.Prelude.{◌≡◌, [], ◌/◌, ◌%◌, drop};
ghost use Rattle.mrc_instruction.specs.Register.{register_of, segment_of};
ghost use Rattle.mrc_rules.specs.Forms.{invalid as invalid_row, bare, on_segment, on_register, on_immediate, on_displacement, far as far_row, escape as escape_row, pop as pop_form};
ghost use Rattle.mrc_instruction.specs.declared.operand.OperandSize.{OperandSize};
ghost use Rattle.mrc_forms.specs.Answers.{read_by, read_behind};
ghost use Rattle.mrc_forms.specs.Groups.{on_register_or_memory};

use crate::answers::{decoded, reaching};
use crate::groups::{sole_operation, sole_reach};
use crate::traits::{read_displacement, read_immediate};
use mrc_instruction::address::Address;
use mrc_instruction::errors::Refusal;
use mrc_instruction::instruction::{Instruction, OperandSet};
use mrc_instruction::mrrm::{NamedOperand, reg_field};
use mrc_instruction::operand::{Operand, OperandSize};
use mrc_instruction::operation::Operation;
use mrc_instruction::read::{Read, Stop, counted_from, read_u8, read_u16};
use mrc_instruction::register::{RegisterEncoding, Segment, SizedRegisterEncoding};

// No instruction has this opcode.
pub fn invalid(opcode: u8, at: usize) -> Read<Instruction>
    ensures { result ≡ read_by opcode invalid_row at [] }
{
    Err(Stop {
        refusal: Refusal::InvalidOpCode(opcode),
        taken: at,
    })
}

// An operation with no operand.
pub fn bare(operation: Operation, at: usize) -> Read<Instruction>
    ensures { result ≡ read_by 0 (bare operation) at [] }
{
    Ok(decoded(operation, OperandSet::None, at))
}

// PUSH and POP of the segment that bits 4 and 3 of the opcode name.
pub fn on_segment(operation: Operation, opcode: u8, at: usize) -> Read<Instruction>
    ensures { result ≡ read_by opcode (on_segment operation (segment_of (opcode / 8 % 4))) at [] }
{
    let destination = Operand::Segment(Segment::from_low_bits(opcode / 8));
    let operands = OperandSet::Destination(destination);
    Ok(decoded(operation, operands, at))
}

// INC, DEC, PUSH and POP of the word register that the low bits of the opcode name. (What it shares with `on_segment` is two lines: one function of the
// operand for both would be no plainer.)
pub fn on_register(operation: Operation, opcode: u8, at: usize) -> Read<Instruction>
    ensures { result ≡ read_by opcode (on_register operation (register_of (opcode % 8))) at [] }
{
    let register = RegisterEncoding::from_low_bits(opcode);
    let destination = Operand::Register(SizedRegisterEncoding(register, OperandSize::Word));
    let operands = OperandSet::Destination(destination);
    Ok(decoded(operation, operands, at))
}

// An operation on an immediate.
pub fn on_immediate(
    operation: Operation,
    size: OperandSize,
    s: &[u8],
    at: usize,
) -> Read<Instruction>
    ensures { result ≡ read_by 0 (on_immediate operation size) at (drop at s.now) }
{
    let immediate = counted_from(at, read_immediate(size, s, at))?;
    let operands = OperandSet::Destination(Operand::Immediate(immediate.value));
    Ok(decoded(operation, operands, immediate.taken))
}

// An operation on a displacement: jumps, calls, and C2.
pub fn on_displacement(
    operation: Operation,
    size: OperandSize,
    s: &[u8],
    at: usize,
) -> Read<Instruction>
    ensures { result ≡ read_by 0 (on_displacement operation size) at (drop at s.now) }
{
    let displacement = counted_from(at, read_displacement(size, s, at))?;
    let operands = OperandSet::Destination(Operand::Displacement(displacement.value));
    Ok(decoded(operation, operands, displacement.taken))
}

// 9A and EA: the offset word, then the segment word.
pub fn far(operation: Operation, s: &[u8], at: usize) -> Read<Instruction>
    ensures { result ≡ read_by 0 (far_row operation) at (drop at s.now) }
{
    let first = counted_from(at, read_u16(s, at))?;
    let second = counted_from(first.taken, read_u16(s, first.taken))?;
    let address = Address {
        segment: second.value,
        offset: first.value,
    };
    let operands = OperandSet::Destination(Operand::SegmentAndOffset(address));
    Ok(decoded(operation, operands, second.taken))
}

// D8 to DF of which one further byte is taken.
pub fn escape(s: &[u8], at: usize) -> Read<Instruction>
    ensures { result ≡ read_by 0 escape_row at (drop at s.now) }
{
    let byte = counted_from(at, read_u8(s, at))?;
    Ok(decoded(Operation::ESC, OperandSet::None, byte.taken))
}

// 8F: POP of a word register or memory, by what its ModRM names and the position behind it. Its displacement is read before reg is tested.
pub fn pop(destination: NamedOperand, at: usize) -> Read<Instruction>
    ensures { result ≡ read_behind pop_form OperandSize.Word destination.operand destination.byte at [] }
{
    if reg_field(destination.byte) != 0 {
        return Err(Stop {
            refusal: Refusal::InvalidModRegRMEncoding(destination.byte),
            taken: at,
        });
    }
    let operands = OperandSet::Destination(destination.operand);
    Ok(decoded(Operation::POP, operands, at))
}

// An operation on the register or memory alone, by the number that names its group and by reg: of FE and FF, and ESC.
pub fn on_register_or_memory(
    group: u8,
    size: OperandSize,
    destination: NamedOperand,
    at: usize,
) -> Read<Instruction>
    ensures { result ≡ read_behind (on_register_or_memory group) size destination.operand destination.byte at [] }
{
    let reg = reg_field(destination.byte);
    let operation = sole_operation(group, reg);
    let reach = sole_reach(group, size, reg);
    let operands = OperandSet::Destination(destination.operand);
    reaching(reach, Ok(decoded(operation, operands, at)))
}
