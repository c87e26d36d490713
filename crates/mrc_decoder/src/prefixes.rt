// Prefixes: what one makes of the answer to the bytes behind it.
ghost use Rattle.std.specs.Prelude.{◌≡◌};
ghost use Rattle.mrc_rules.specs.Prefixes.{in_segment, repeat_of, keeps as keeps_in};
ghost use Rattle.mrc_decoder.specs.Prefixes.{refusal_under, overridden, under_override, with_repeat, behind_prefix, Small};

use mrc_instruction::errors::Refusal;
use mrc_instruction::instruction::{Instruction, OperandSet, Repeat};
use mrc_instruction::operand::Operand;
use mrc_instruction::operation::Operation;
use mrc_instruction::reading::Reading;
use mrc_instruction::register::Segment;
use mrc_rules::Answer;

// The operand in another segment, where it is Direct or Indirect.
pub fn override_segment(operand: Operand, segment: Segment) -> Operand
    ensures { result ≡ in_segment segment operand }
{
    match operand {
        Operand::Direct(_, size, offset) => Operand::Direct(segment, size, offset),
        Operand::Indirect(_, size, mode, displacement) => {
            Operand::Indirect(segment, size, mode, displacement)
        }
        elsewhere => elsewhere,
    }
}

// A refusal under an override: too many prefixes passes through, and any other is the override's own.
fn refusal_under(prefix: u8, refusal: Refusal) -> Refusal
    ensures { result ≡ refusal_under prefix refusal }
{
    match refusal {
        Refusal::TooManyPrefixes(_) => refusal,
        _ => Refusal::InvalidPrefix(prefix),
    }
}

// Whether an operation keeps an override: in reading 2 those that read memory which no operand names.
fn keeps(operation: Operation, reading: Reading) -> bool
    ensures { result ≡ keeps_in reading operation }
{
    match reading {
        Reading::One => false,
        Reading::Two => matches!(
            operation,
            Operation::MOVSB
                | Operation::MOVSW
                | Operation::CMPSB
                | Operation::CMPSW
                | Operation::LODSB
                | Operation::LODSW
                | Operation::XLATB
        ),
    }
}

// Puts the instruction under an override in a place: each operand in its segment; where there is none the override is kept, or refused.
fn overridden(
    prefix: u8,
    instruction: Instruction,
    reading: Reading,
    place: &mut Result<Instruction, Refusal>,
)
    ensures { place.new ≡ overridden reading prefix instruction }
{
    let segment = Segment::from_low_bits(prefix / 8);
    match instruction.operands {
        OperandSet::None => {
            if keeps(instruction.operation, reading) {
                *place = Ok(instruction.keeping(segment));
            } else {
                *place = Err(Refusal::InvalidPrefix(prefix));
            }
        }
        OperandSet::Destination(destination) => {
            let operands = OperandSet::Destination(override_segment(destination, segment));
            *place = Ok(instruction.on(operands));
        }
        OperandSet::DestinationAndSource(destination, source) => {
            let operands = OperandSet::DestinationAndSource(
                override_segment(destination, segment),
                override_segment(source, segment),
            );
            *place = Ok(instruction.on(operands));
        }
    }
}

// The inner answer under an override, in its place. (That its counts can grow by one is asked by the three functions here: as an invariant of `Answer` it would
// be asked of all who make one. The counts of both prefixes are two lines, which a function would not make plainer.)
fn under_override(prefix: u8, answer: &mut Answer, reading: Reading)
    requires { Small answer.old }
    ensures { answer.new ≡ under_override reading prefix answer.old }
{
    match answer.result {
        Ok(instruction) => overridden(prefix, instruction, reading, &mut answer.result),
        Err(refusal) => answer.result = Err(refusal_under(prefix, refusal)),
    }
    answer.taken += 1;
    answer.prefixes += 1;
}

// The repeat that a prefix names.
fn repeat_of(prefix: u8) -> Repeat
    ensures { Some result ≡ repeat_of (Some prefix) }
{
    if prefix == 0xF2 {
        Repeat::NotEqual
    } else {
        Repeat::Equal
    }
}

// The inner answer under a repeat, which replaces a later one, in its place.
fn with_repeat(prefix: u8, answer: &mut Answer)
    requires { Small answer.old }
    ensures { answer.new ≡ with_repeat (repeat_of (Some prefix)) answer.old }
{
    let repeat = Some(repeat_of(prefix));
    if let Ok(instruction) = answer.result {
        answer.result = Ok(instruction.repeated(repeat));
    }
    answer.taken += 1;
    answer.prefixes += 1;
}

// The inner answer behind a prefix of either kind, told by its byte, which the refusals carry: a case beside the byte would say it twice. It stays a call: built
// into the decoder it costs a step that has no prefix. It changes the answer where it lies, and each case by itself: one handed on by value, or put together
// behind the cases, is copied field by field, 50 to 70 instructions a prefix.
#[inline(never)]
pub fn behind_prefix(prefix: u8, answer: &mut Answer, reading: Reading)
    requires { Small answer.old }
    ensures { answer.new ≡ behind_prefix reading prefix answer.old }
{
    if prefix < 0xF0 {
        under_override(prefix, answer, reading);
    } else {
        with_repeat(prefix, answer);
    }
}
