// The instruction at a position: its prefixes, its opcode, and what follows.
ghost use Rattle.std.specs.Prelude.{◌≡◌, [], ◌≤◌, drop};
ghost use Rattle.mrc_rules.specs.Forms.{◌⦂◌};
ghost use Rattle.mrc_rules.specs.Decode.{decode_at};
ghost use Rattle.mrc_forms.specs.Answers.{read_by, read_in, read_behind_in};
ghost use Rattle.mrc_decoder.specs.Form.{alone_row, modrm_form};
ghost use Rattle.mrc_decoder.specs.Decode.{end_of, answer_from};
ghost use Rattle.mrc_decoder.specs.Prefixes.{too_many, past_end};

use crate::form::{Form, OpcodeAlone, WithModRM, form_of};
use crate::prefixes::behind_prefix;
use mrc_directed::common::{
    Direction, immediate_to_accumulator, immediate_to_register_or_memory,
    register_or_memory_and_register, register_or_memory_and_segment,
};
use mrc_directed::groups::{group_83, group_f6};
use mrc_directed::moves::{accumulator_and_direct, exchange, register_and_immediate};
use mrc_directed::ports::{in_dx, in_port, out_dx, out_port};
use mrc_directed::shifts::{shift_by_cl, shift_by_immediate, shift_by_one};
use mrc_forms::answers::{reaching, writing};
use mrc_forms::forms::{
    bare, escape, far, invalid, on_displacement, on_immediate, on_register, on_register_or_memory,
    on_segment, pop,
};
use mrc_instruction::errors::Refusal;
use mrc_instruction::instruction::{Instruction, Reach};
use mrc_instruction::mrrm::{NamedOperand, read_operand};
use mrc_instruction::operand::OperandSize;
use mrc_instruction::operation::Operation;
use mrc_instruction::read::Read;
use mrc_instruction::reading::Reading;
use mrc_rules::Answer;

// A form that is its opcode alone, with the position behind it. Each arm returns what it reads by itself, here and behind a ModRM, as in `decode_instruction`.
fn opcode_alone(form: OpcodeAlone, opcode: u8, at: usize) -> Read<Instruction>
    ensures { result ≡ read_by opcode (alone_row form opcode) at [] }
{
    match form {
        OpcodeAlone::Bare(operation) => return bare(operation, at),
        OpcodeAlone::Return(reach) => return reaching(reach, bare(Operation::RET, at)),
        OpcodeAlone::OnSegment(operation) => return on_segment(operation, opcode, at),
        OpcodeAlone::Exchange => return exchange(opcode, at),
        OpcodeAlone::InDx => return in_dx(opcode, at),
        OpcodeAlone::OutDx => return out_dx(opcode, at),
    }
}

// What a form reads behind its ModRM, by what this names and the position behind it.
fn behind_modrm(
    form: WithModRM,
    size: OperandSize,
    modrm: NamedOperand,
    s: &[u8],
    next: usize,
    reading: Reading,
) -> Read<Instruction>
    ensures { result ≡ read_behind_in reading (modrm_form form) size modrm.operand modrm.byte next (drop next s.now) }
{
    match form {
        WithModRM::Pop => return pop(modrm, next),
        WithModRM::OnRegisterOrMemory(group) => {
            return on_register_or_memory(group, size, modrm, next);
        }
        WithModRM::GroupF6 => return group_f6(size, modrm, s, next),
        WithModRM::RmReg(operation) => return register_or_memory_and_register(
            operation,
            Direction::RegMemFirst, // rm,reg
            size,
            modrm,
            next,
        ),
        WithModRM::RegRm(operation) => return register_or_memory_and_register(
            operation,
            Direction::RegFirst, // reg,rm
            size,
            modrm,
            next,
        ),
        WithModRM::RmSegment => return register_or_memory_and_segment(
            Direction::RegMemFirst, // rm,segment
            modrm,
            next,
        ),
        WithModRM::SegmentRm => return register_or_memory_and_segment(
            Direction::RegFirst, // segment,rm
            modrm,
            next,
        ),
        WithModRM::ImmediateToRegisterOrMemory(group) => {
            return immediate_to_register_or_memory(group, size, modrm, s, next);
        }
        WithModRM::Group83 => return group_83(modrm, s, next, reading),
        WithModRM::ShiftByImmediate => return shift_by_immediate(modrm, s, next),
        WithModRM::ShiftByOne => return shift_by_one(modrm, next),
        WithModRM::ShiftByCl => return shift_by_cl(size, modrm, next, reading),
    }
}

// A form with a ModRM, from the position behind the opcode on: the operand of a size that the ModRM names, and what follows. How many displacement bytes
// were written is set here, for all of them.
fn with_modrm(
    form: WithModRM,
    size: OperandSize,
    s: &[u8],
    at: usize,
    reading: Reading,
) -> Read<Instruction>
    ensures { result ≡ read_in reading 0 (modrm_form form ⦂ size) at (drop at s.now) }
{
    let modrm = read_operand(size, s, at, reading)?;
    let read = behind_modrm(form, size, modrm.value, s, modrm.taken, reading);
    writing(modrm.value.written, read)
}

// What a form's function answers, its bytes counted from the position of its opcode on, with no prefix.
fn answered(at: usize, read: Read<Instruction>) -> Answer
    requires { at ≤ end_of read }
    ensures { result ≡ answer_from at read }
{
    match read {
        Ok(form) => Answer {
            result: Ok(form.value),
            taken: form.taken - at,
            prefixes: 0,
        },
        Err(stop) => Answer {
            result: Err(stop.refusal),
            taken: stop.taken - at,
            prefixes: 0,
        },
    }
}

// A prefix over the budget.
fn too_many(prefix: u8) -> Answer
    ensures { result ≡ too_many prefix }
{
    Answer {
        result: Err(Refusal::TooManyPrefixes(prefix)),
        taken: 1,
        prefixes: 1,
    }
}

// There is no byte at the position: it is the end of the input, or beyond.
fn past(len: usize, at: usize) -> Answer
    ensures { result ≡ past_end len at }
{
    let refusal = if len == at {
        Refusal::EndOfInput
    } else {
        Refusal::OutsideInput
    };
    Answer {
        result: Err(refusal),
        taken: 0,
        prefixes: 0,
    }
}

// The instruction at a position, or why there is none. Each prefix byte lowers the budget by one, and wraps what the bytes behind it come to.
// Each arm returns its answer itself: a step takes 7 instructions more where the match has the answers as its value.
pub fn decode_instruction(s: &[u8], at: usize, budget: u8, reading: Reading) -> Answer
    ensures { result ≡ decode_at reading s.now at budget }
{
    if s.len() <= at {
        return past(s.len(), at);
    }
    let byte = s[at];
    let next = at + 1;
    match form_of(byte, reading) {
        Form::Override | Form::Repeat => {
            if budget == 0 {
                return too_many(byte);
            }
            let mut answer = decode_instruction(s, next, budget - 1, reading);
            behind_prefix(byte, &mut answer, reading);
            return answer;
        }
        Form::Invalid => return answered(at, invalid(byte, next)),
        Form::OnRegister(operation) => return answered(at, on_register(operation, byte, next)),
        Form::OnImmediate(operation, size, reach) => return answered(
            at,
            reaching(reach, on_immediate(operation, size, s, next)),
        ),
        Form::OnDisplacement(operation, size, reach) => return answered(
            at,
            reaching(reach, on_displacement(operation, size, s, next)),
        ),
        Form::Far(operation) => return answered(at, reaching(Reach::Far, far(operation, s, next))),
        Form::Escape => return answered(at, escape(s, next)),
        Form::InPort => return answered(at, in_port(byte, s, next)),
        Form::OutPort => return answered(at, out_port(byte, s, next)),
        Form::RegisterAndImmediate => return answered(at, register_and_immediate(byte, s, next)),
        Form::AccumulatorAndDirect => return answered(at, accumulator_and_direct(byte, s, next)),
        Form::ImmediateToAccumulator(operation) => {
            return answered(at, immediate_to_accumulator(operation, byte, s, next));
        }
        Form::OpcodeAlone(form) => return answered(at, opcode_alone(form, byte, next)),
        Form::WithModRM(form, size) => return answered(
            at,
            with_modrm(form, size, s, next, reading),
        ),
    }
}
