// What a displacement that is an operand prints as.
ghost use Rattle.std.specs.Prelude.{◌≡◌};
ghost use Rattle.mrc_line.specs.Printed.{stack_bytes, alone};

use crate::target::target;
use mrc_instruction::operand::Displacement;
use mrc_instruction::operation::Operation;
use mrc_instruction::signed::unsigned_word;

// A word in four digits, or a sign and a magnitude.
#[derive(Clone, Copy, Debug, PartialEq, Eq)]
pub enum Printed {
    Word(u16),
    Signed(Displacement),
}

// The bytes that an instruction was read from: the offset at which they start, how many they are, and how many of them are a displacement's.
// (The reading goes beside them: as a field, a program's one reading is not known where a line is written, which takes five instructions a line more.)
#[derive(Clone, Copy, Debug, PartialEq, Eq)]
pub struct Origin {
    pub start: u16,
    pub taken: u16,
    pub written: u8,
}

// The bytes of the stack that a return counts: the number itself, as a word.
fn stack_bytes(d: Displacement) -> u16
    ensures { result ≡ stack_bytes d }
{
    match d {
        Displacement::None => 0,
        Displacement::Byte(b) => unsigned_word(b as i16),
        Displacement::Word(w) => unsigned_word(w),
    }
}

// The sole operand of an instruction: RET counts bytes of the stack, all else has a target.
pub fn alone(operation: Operation, origin: Origin, d: Displacement) -> Printed
    ensures { result ≡ alone operation origin.start origin.taken d }
{
    if matches!(operation, Operation::RET) {
        Printed::Word(stack_bytes(d))
    } else {
        Printed::Word(target(origin.start, origin.taken, d))
    }
}
