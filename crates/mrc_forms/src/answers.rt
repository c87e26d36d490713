// What a form's function answers: the instruction, or why there is none, with the bytes taken, which are counted from the front of the slice, so that
// they are the position behind what was read.
ghost use Rattle.std.specs.Prelude.{◌≡◌};
ghost use Rattle.mrc_instruction.specs.Instruction.{plain};
ghost use Rattle.mrc_instruction.specs.Read.{taking};
ghost use Rattle.mrc_forms.specs.Answers.{reached_answer, reached_whole, wrote_answer, wrote_whole};

use mrc_instruction::instruction::{Instruction, OperandSet, Reach};
use mrc_instruction::operation::Operation;
use mrc_instruction::read::{Read, Taken};
use mrc_rules::Answer;

// An operation on operands, neither near nor far, with the position behind its bytes.
pub fn decoded(operation: Operation, operands: OperandSet, end: usize) -> Taken<Instruction>
    ensures { result ≡ taking (plain operation operands) end }
{
    Taken {
        value: Instruction::new(operation, operands),
        taken: end,
    }
}

// The same answer, with how far its instruction goes.
pub fn reaching(reach: Reach, read: Read<Instruction>) -> Read<Instruction>
    ensures { result ≡ reached_answer reach read }
{
    read.map(|form| form.with(form.value.reaching(reach)))
}

// The same answer, with the displacement bytes that its instruction was written with.
pub fn writing(written: u8, read: Read<Instruction>) -> Read<Instruction>
    ensures { result ≡ wrote_answer written read }
{
    read.map(|form| form.with(form.value.writing(written)))
}

// A whole answer, with how far its instruction goes and its counts as they are.
pub fn answer_reaching(reach: Reach, answer: Answer) -> Answer
    ensures { result ≡ reached_whole reach answer }
{
    Answer {
        result: answer.result.map(|whole| whole.reaching(reach)),
        ..answer
    }
}

// A whole answer, with the displacement bytes that its instruction was written with and its counts as they are.
pub fn answer_writing(written: u8, answer: Answer) -> Answer
    ensures { result ≡ wrote_whole written answer }
{
    Answer {
        result: answer.result.map(|whole| whole.writing(written)),
        ..answer
    }
}
