// IN and OUT: the accumulator and a port, which is an immediate or DX. Each is written out with its destination before its source: one function for both
// would take the order as a parameter, and be no plainer.
ghost use Rattle.std.specs.Prelude.{◌≡◌, [], drop};
ghost use Rattle.mrc_rules.specs.Forms.{in_dx, out_dx, in_port, out_port};
ghost use Rattle.mrc_forms.specs.Answers.{read_by};
ghost use Rattle.mrc_instruction.specs.Operand.{size_by};

use mrc_forms::answers::decoded;
use mrc_forms::traits::read_immediate;
use mrc_instruction::instruction::{Instruction, OperandSet};
use mrc_instruction::operand::{Operand, OperandSize};
use mrc_instruction::operation::Operation;
use mrc_instruction::read::{Read, counted_from};
use mrc_instruction::register::{RegisterEncoding, SizedRegisterEncoding};

// EC and ED: IN of the accumulator and DX.
pub fn in_dx(opcode: u8, at: usize) -> Read<Instruction>
    ensures { result ≡ read_by opcode (in_dx (size_by opcode)) at [] }
{
    let size = OperandSize::from_low_bit(opcode);
    let accumulator = Operand::Register(SizedRegisterEncoding(RegisterEncoding::AlAx, size));
    let dx = Operand::Register(SizedRegisterEncoding(RegisterEncoding::DlDx, OperandSize::Word));
    let operands = OperandSet::DestinationAndSource(accumulator, dx);
    Ok(decoded(Operation::IN, operands, at))
}

// EE and EF: OUT of DX and the accumulator.
pub fn out_dx(opcode: u8, at: usize) -> Read<Instruction>
    ensures { result ≡ read_by opcode (out_dx (size_by opcode)) at [] }
{
    let size = OperandSize::from_low_bit(opcode);
    let accumulator = Operand::Register(SizedRegisterEncoding(RegisterEncoding::AlAx, size));
    let dx = Operand::Register(SizedRegisterEncoding(RegisterEncoding::DlDx, OperandSize::Word));
    let operands = OperandSet::DestinationAndSource(dx, accumulator);
    Ok(decoded(Operation::OUT, operands, at))
}

// E4 and E5: IN of the accumulator and a port.
pub fn in_port(opcode: u8, s: &[u8], at: usize) -> Read<Instruction>
    ensures { result ≡ read_by opcode (in_port (size_by opcode)) at (drop at s.now) }
{
    let size = OperandSize::from_low_bit(opcode);
    let immediate = counted_from(at, read_immediate(OperandSize::Byte, s, at))?;
    let accumulator = Operand::Register(SizedRegisterEncoding(RegisterEncoding::AlAx, size));
    let port = Operand::Immediate(immediate.value);
    let operands = OperandSet::DestinationAndSource(accumulator, port);
    Ok(decoded(Operation::IN, operands, immediate.taken))
}

// E6 and E7: OUT of a port and the accumulator.
pub fn out_port(opcode: u8, s: &[u8], at: usize) -> Read<Instruction>
    ensures { result ≡ read_by opcode (out_port (size_by opcode)) at (drop at s.now) }
{
    let size = OperandSize::from_low_bit(opcode);
    let immediate = counted_from(at, read_immediate(OperandSize::Byte, s, at))?;
    let accumulator = Operand::Register(SizedRegisterEncoding(RegisterEncoding::AlAx, size));
    let port = Operand::Immediate(immediate.value);
    let operands = OperandSet::DestinationAndSource(port, accumulator);
    Ok(decoded(Operation::OUT, operands, immediate.taken))
}
