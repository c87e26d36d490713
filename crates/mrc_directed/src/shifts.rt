// Shifts of the operand that a ModRM names, by its byte and the position behind it.
ghost use Rattle.std.specs.Prelude.{◌≡◌, [], drop};
ghost use Rattle.mrc_instruction.specs.declared.operand.OperandSize.{OperandSize};
ghost use Rattle.mrc_rules.specs.Forms.{shift_by_immediate, shift_by_one, shift_by_cl, count_size};
ghost use Rattle.mrc_forms.specs.Answers.{read_behind, read_behind_in};

use mrc_forms::answers::decoded;
use mrc_forms::groups::group2_operation;
use mrc_forms::traits::read_immediate;
use mrc_instruction::instruction::{Instruction, OperandSet};
use mrc_instruction::mrrm::{NamedOperand, reg_field};
use mrc_instruction::operand::{Immediate, Operand, OperandSize};
use mrc_instruction::read::{Read, counted_from};
use mrc_instruction::reading::Reading;
use mrc_instruction::register::{RegisterEncoding, SizedRegisterEncoding};

// C0 and C1: a shift by an immediate byte, whatever the size of the operand.
pub fn shift_by_immediate(destination: NamedOperand, s: &[u8], at: usize) -> Read<Instruction>
    ensures { (size : OperandSize) → result ≡ read_behind shift_by_immediate size destination.operand destination.byte at (drop at s.now) }
{
    let immediate = counted_from(at, read_immediate(OperandSize::Byte, s, at))?;
    let count = Operand::Immediate(immediate.value);
    let operation = group2_operation(reg_field(destination.byte));
    let operands = OperandSet::DestinationAndSource(destination.operand, count);
    Ok(decoded(operation, operands, immediate.taken))
}

// The size of the count: that of the operand, and in reading 2 a byte.
fn count_size(size: OperandSize, reading: Reading) -> OperandSize
    ensures { result ≡ count_size reading size }
{
    match reading {
        Reading::One => size,
        Reading::Two => OperandSize::Byte,
    }
}

// D0 and D1: a shift by 1, whatever the size of the operand.
pub fn shift_by_one(destination: NamedOperand, at: usize) -> Read<Instruction>
    ensures { (size : OperandSize) → result ≡ read_behind shift_by_one size destination.operand destination.byte at [] }
{
    let operation = group2_operation(reg_field(destination.byte));
    let once = Operand::Immediate(Immediate::Byte(1));
    let operands = OperandSet::DestinationAndSource(destination.operand, once);
    Ok(decoded(operation, operands, at))
}

// D2 and D3: a shift by ClCx.
pub fn shift_by_cl(
    size: OperandSize,
    destination: NamedOperand,
    at: usize,
    reading: Reading,
) -> Read<Instruction>
    ensures { result ≡ read_behind_in reading shift_by_cl size destination.operand destination.byte at [] }
{
    let operation = group2_operation(reg_field(destination.byte));
    let count = count_size(size, reading);
    let cl = Operand::Register(SizedRegisterEncoding(RegisterEncoding::ClCx, count));
    let operands = OperandSet::DestinationAndSource(destination.operand, cl);
    Ok(decoded(operation, operands, at))
}
