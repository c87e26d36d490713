// MOV and XCHG of a register that the opcode names. Those that read take the position behind the opcode.
ghost use Rattle.std.specs.Prelude.{◌≡◌, [], ◌/◌, ◌%◌, drop};
ghost use Rattle.mrc_instruction.specs.Register.{register_of};
ghost use Rattle.mrc_rules.specs.Forms.{exchange as exchange_row, register_and_immediate};
ghost use Rattle.mrc_forms.specs.Answers.{read_by};
ghost use Rattle.mrc_instruction.specs.Operand.{size_by};
ghost use Rattle.mrc_directed.specs.Moves.{accumulator_and_direct};

use mrc_forms::answers::decoded;
use mrc_forms::traits::{d_bit, read_immediate};
use mrc_instruction::instruction::{Instruction, OperandSet};
use mrc_instruction::operand::{Operand, OperandSize};
use mrc_instruction::operation::Operation;
use mrc_instruction::read::{Read, counted_from, read_u16};
use mrc_instruction::register::{RegisterEncoding, Segment, SizedRegisterEncoding};

// 91 to 97: XCHG of AX and the word register that the low bits of the opcode name.
pub fn exchange(opcode: u8, at: usize) -> Read<Instruction>
    ensures { result ≡ read_by opcode (exchange_row (register_of (opcode % 8))) at [] }
{
    let register = RegisterEncoding::from_low_bits(opcode);
    let ax = Operand::Register(SizedRegisterEncoding(RegisterEncoding::AlAx, OperandSize::Word));
    let source = Operand::Register(SizedRegisterEncoding(register, OperandSize::Word));
    let operands = OperandSet::DestinationAndSource(ax, source);
    Ok(decoded(Operation::XCHG, operands, at))
}

// B0 to BF: MOV of the register that the low bits of the opcode name and an immediate. Bit 3 names the size.
pub fn register_and_immediate(opcode: u8, s: &[u8], at: usize) -> Read<Instruction>
    ensures { result ≡ read_by opcode (register_and_immediate (register_of (opcode % 8)) (size_by (opcode / 8))) at (drop at s.now) }
{
    let size = OperandSize::from_low_bit(opcode / 8);
    let immediate = counted_from(at, read_immediate(size, s, at))?;
    let register = RegisterEncoding::from_low_bits(opcode);
    let reg = Operand::Register(SizedRegisterEncoding(register, size));
    let source = Operand::Immediate(immediate.value);
    let operands = OperandSet::DestinationAndSource(reg, source);
    Ok(decoded(Operation::MOV, operands, immediate.taken))
}

// A0 to A3: MOV of the accumulator and Direct; d puts Direct first.
pub fn accumulator_and_direct(opcode: u8, s: &[u8], at: usize) -> Read<Instruction>
    ensures { result ≡ read_by opcode (accumulator_and_direct opcode) at (drop at s.now) }
{
    let size = OperandSize::from_low_bit(opcode);
    let offset = counted_from(at, read_u16(s, at))?;
    let reg = Operand::Register(SizedRegisterEncoding(RegisterEncoding::AlAx, size));
    let direct = Operand::Direct(Segment::DS, size, offset.value);
    let operands = if d_bit(opcode) {
        OperandSet::DestinationAndSource(direct, reg)
    } else {
        OperandSet::DestinationAndSource(reg, direct)
    };
    Ok(decoded(Operation::MOV, operands, offset.taken))
}
