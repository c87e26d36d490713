// The record of an answer: five machine words.
ghost use Rattle.std.specs.Prelude.{◌≡◌, ◌<◌};
ghost use Rattle.mrc_instruction.specs.Widths.{words};
ghost use Rattle.mrc_rules.specs.Answer.{taken, prefixes};
ghost use Rattle.mrc_c.specs.Record.{HeadHeld, BodyHeld, head_by, body_by, repeat_code, reach_code, kept_code, record_of, Written};

use crate::operands::operand_word;
use crate::words::{FROM_1, FROM_2, FROM_3, FROM_4, FROM_5};
use mrc_instruction::instruction::{OperandSet, Reach, Repeat};
use mrc_instruction::register::Segment;
use mrc_rules::Answer;

fn head_word(refusal: u8, byte: u8, taken: usize, prefixes: usize) -> u64
    requires { (taken < words) × (prefixes < words) }
    ensures { HeadHeld (head_by refusal byte taken prefixes) result }
{
    (refusal as u64) + FROM_1 * (byte as u64) + FROM_2 * (taken as u64) + FROM_4 * (prefixes as u64)
}

// Each word of C's record has bytes of its own, so each is a sum of its own.
fn body_word(operation: u8, repeat: u8, reach: u8, kept: u8, written: u8, operands: u8) -> u64
    ensures { BodyHeld (body_by operation repeat reach kept written operands) result }
{
    (operation as u64)
        + FROM_1 * (repeat as u64)
        + FROM_2 * (reach as u64)
        + FROM_3 * (kept as u64)
        + FROM_4 * (written as u64)
        + FROM_5 * (operands as u64)
}

fn repeat_code(repeat: Option<Repeat>) -> u8
    ensures { result ≡ repeat_code repeat }
{
    match repeat {
        None => 0,
        Some(Repeat::Equal) => 1,
        Some(Repeat::NotEqual) => 2,
    }
}

// (C's numbers, a line each, so that they hold whatever the order of the cases.)
fn reach_code(reach: Reach) -> u8
    ensures { result ≡ reach_code reach }
{
    match reach {
        Reach::Neither => 0,
        Reach::Near => 1,
        Reach::Far => 2,
    }
}

fn kept_code(kept: Option<Segment>) -> u8
    ensures { result ≡ kept_code kept }
{
    match kept {
        None => 0,
        Some(segment) => 1 + u8::from(segment),
    }
}

// The instruction or the refusal, the bytes taken and the prefixes.
pub fn record_of(answer: Answer) -> [u64; 5]
    requires { (taken answer < words) × (prefixes answer < words) }
    ensures { Written (record_of answer) result }
{
    let Answer {
        result,
        taken,
        prefixes,
    } = answer;
    match result {
        Ok(instruction) => {
            let head = head_word(0, 0, taken, prefixes);
            let body = |operands| {
                body_word(
                    instruction.operation.number(),
                    repeat_code(instruction.repeat),
                    reach_code(instruction.reach),
                    kept_code(instruction.kept),
                    instruction.written,
                    operands,
                )
            };
            match instruction.operands {
                OperandSet::None => [head, body(0), 0, 0, 0],
                OperandSet::Destination(destination) => {
                    [head, body(1), operand_word(destination), 0, 0]
                }
                OperandSet::DestinationAndSource(destination, source) => [
                    head,
                    body(2),
                    operand_word(destination),
                    operand_word(source),
                    0,
                ],
            }
        }
        Err(refusal) => {
            let head = head_word(refusal.number(), refusal.byte(), taken, prefixes);
            [head, 0, 0, 0, 0]
        }
    }
}
