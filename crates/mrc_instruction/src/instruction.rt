// An instruction: its operation, its operands, how far it goes, whether it is repeated, the override that it keeps, and how many displacement bytes it
// was written with.
ghost use Rattle.std.specs.Prelude.{◌≡◌};
ghost use Rattle.mrc_instruction.specs.Instruction.{plain, reached, repeated_by, on_operands, keeping_in, wrote};

use crate::operand::Operand;
use crate::operation::Operation;
use crate::register::Segment;

// The destination stands before the source.
#[derive(Clone, Copy, Debug, PartialEq, Eq)]
pub enum OperandSet {
    None,
    Destination(Operand),
    DestinationAndSource(Operand, Operand),
}

#[derive(Clone, Copy, Debug, PartialEq, Eq)]
pub enum Repeat {
    Equal,
    NotEqual,
}

// How far a call, a jump or a return goes: within its segment, or to another. All else is neither.
#[derive(Clone, Copy, Debug, PartialEq, Eq)]
pub enum Reach {
    Neither,
    Near,
    Far,
}

// What is a byte or two stands first, but for the last: each operand is then one of the pieces of eight bytes in which an instruction is copied, and is loaded
// as it was stored.
#[derive(Clone, Copy, Debug, PartialEq, Eq)]
pub struct Instruction {
    pub reach: Reach,
    pub repeat: Option<Repeat>,
    pub operation: Operation,
    // The segment of the override before an operation which reads memory that no operand names.
    pub kept: Option<Segment>,
    pub operands: OperandSet,
    // The displacement bytes behind its ModRM: 0, 1 or 2.
    pub written: u8,
}

impl Instruction {
    // The instruction with no repeat, neither near nor far, that keeps no override and has no displacement bytes.
    pub fn new(operation: Operation, operands: OperandSet) -> Self
        ensures { result ≡ plain operation operands }
    {
        Self {
            reach: Reach::Neither,
            repeat: None,
            operation,
            kept: None,
            operands,
            written: 0,
        }
    }

    // The same instruction, near, far or neither.
    pub fn reaching(self, reach: Reach) -> Self
        ensures { result ≡ reached reach self }
    {
        Self { reach, ..self }
    }

    // The same instruction with a repeat, or without one.
    pub fn repeated(self, repeat: Option<Repeat>) -> Self
        ensures { result ≡ repeated_by repeat self }
    {
        Self { repeat, ..self }
    }

    // The same instruction on other operands.
    pub fn on(self, operands: OperandSet) -> Self
        ensures { result ≡ on_operands operands self }
    {
        Self { operands, ..self }
    }

    // The same instruction, which keeps an override of a segment.
    pub fn keeping(self, segment: Segment) -> Self
        ensures { result ≡ keeping_in segment self }
    {
        Self {
            kept: Some(segment),
            ..self
        }
    }

    // The same instruction, with the displacement bytes that it was written with.
    pub fn writing(self, written: u8) -> Self
        ensures { result ≡ wrote written self }
    {
        Self { written, ..self }
    }
}
