// Groups whose operation reg names, on the operand that their ModRM names, by its byte and the position behind it.
ghost use Rattle.std.specs.Prelude.{◌≡◌, drop};
ghost use Rattle.mrc_instruction.specs.declared.operand.OperandSize.{OperandSize};
ghost use Rattle.mrc_rules.specs.Forms.{group83, group_f6, widened as widened_in};
ghost use Rattle.mrc_forms.specs.Answers.{read_behind, read_behind_in};

use mrc_forms::answers::decoded;
use mrc_forms::groups::{group_f6_operation, group80_operation};
use mrc_forms::traits::read_immediate;
use mrc_instruction::errors::Refusal;
use mrc_instruction::instruction::{Instruction, OperandSet};
use mrc_instruction::mrrm::{NamedOperand, reg_field};
use mrc_instruction::operand::{Immediate, Operand, OperandSize};
use mrc_instruction::operation::Operation;
use mrc_instruction::read::{Read, Stop, counted_from, read_u8};
use mrc_instruction::reading::Reading;

// The word of a byte: widened with zeros, and in reading 2 by its sign. (The sum is the rule's own; through an i8 and an i16 it is no plainer.)
fn widened(byte: u8, reading: Reading) -> u16
    ensures { result ≡ widened_in reading byte }
{
    match reading {
        Reading::One => byte as u16,
        Reading::Two => {
            if byte < 128 {
                byte as u16
            } else {
                byte as u16 + 0xFF00
            }
        }
    }
}

// 83: a word register or memory, and one byte widened.
pub fn group_83(
    destination: NamedOperand,
    s: &[u8],
    at: usize,
    reading: Reading,
) -> Read<Instruction>
    ensures { result ≡ read_behind_in reading group83 OperandSize.Word destination.operand destination.byte at (drop at s.now) }
{
    let byte = counted_from(at, read_u8(s, at))?;
    let word = Operand::Immediate(Immediate::Word(widened(byte.value, reading)));
    let operation = group80_operation(reg_field(destination.byte));
    let operands = OperandSet::DestinationAndSource(destination.operand, word);
    Ok(decoded(operation, operands, byte.taken))
}

// F6 and F7, by reg: TEST with an immediate, 1 refused, and six on the register or memory alone.
pub fn group_f6(
    size: OperandSize,
    destination: NamedOperand,
    s: &[u8],
    at: usize,
) -> Read<Instruction>
    ensures { result ≡ read_behind group_f6 size destination.operand destination.byte at (drop at s.now) }
{
    match reg_field(destination.byte) {
        0 => {
            let immediate = counted_from(at, read_immediate(size, s, at))?;
            let source = Operand::Immediate(immediate.value);
            let operands = OperandSet::DestinationAndSource(destination.operand, source);
            Ok(decoded(Operation::TEST, operands, immediate.taken))
        }
        1 => Err(Stop {
            refusal: Refusal::InvalidOpCode(1),
            taken: at,
        }),
        reg => {
            let operation = group_f6_operation(reg - 2);
            let operands = OperandSet::Destination(destination.operand);
            Ok(decoded(operation, operands, at))
        }
    }
}
