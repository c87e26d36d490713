// What a line of a step of a listing has before its LF: the offset, the bytes, and what they came to.
ghost use Rattle.std.specs.Prelude.{◌≡◌, ◌+◌, ◌<◌, ◌≤◌, length};
ghost use Rattle.mrc_line.specs.Target.{offsets};
ghost use Rattle.mrc_line.specs.Text.{Put};
ghost use Rattle.mrc_line.specs.Line.{head_text, repeat_text, kept_text, reach_text, instruction_text, db_text, body_text, step_taken};

use crate::names::put_name;
use crate::operands::put_operands;
use crate::printed::Origin;
use crate::registers::put_segment;
use crate::text::{SHOWN, put_bytes, put_field, put_hex2, put_hex4, put_spaces};
use mrc_instruction::instruction::{Instruction, Reach, Repeat};
use mrc_instruction::reading::Reading;
use mrc_instruction::register::Segment;
use mrc_rules::Answer;

// The offset, its high byte first, and the bytes taken.
pub fn put_head(buf: &mut [u8], at: usize, start: u16, taken: &[u8]) -> usize
    requires { at + 29 ≤ length buf.old }
    ensures { Put 29 buf.old at (head_text start taken.now) buf.new result }
{
    let n = SHOWN.min(taken.len());
    let b = put_hex4(buf, at, start);
    let c = put_spaces(buf, b, 2);
    let d = put_field(buf, c, &taken[..n]);
    put_spaces(buf, d, 2)
}

fn put_repeat(buf: &mut [u8], at: usize, repeat: Option<Repeat>) -> usize
    requires { at + 6 ≤ length buf.old }
    ensures { Put 6 buf.old at (repeat_text repeat) buf.new result }
{
    match repeat {
        None => at,
        Some(Repeat::Equal) => put_bytes(buf, at, b"REPE "),
        Some(Repeat::NotEqual) => put_bytes(buf, at, b"REPNE "),
    }
}

// The override that an instruction keeps, with its colon.
fn put_kept(buf: &mut [u8], at: usize, kept: Option<Segment>) -> usize
    requires { at + 4 ≤ length buf.old }
    ensures { Put 4 buf.old at (kept_text kept) buf.new result }
{
    let Some(segment) = kept else {
        return at;
    };
    let c = put_segment(buf, at, segment);
    put_bytes(buf, c, b": ")
}

// What stands behind the name of a call, a jump or a return that is far.
fn put_reach(buf: &mut [u8], at: usize, reach: Reach) -> usize
    requires { at + 4 ≤ length buf.old }
    ensures { Put 4 buf.old at (reach_text reach) buf.new result }
{
    match reach {
        Reach::Far => put_bytes(buf, at, b" FAR"),
        _ => at,
    }
}

// The instruction that starts at an offset and takes so many bytes.
fn put_instruction(
    buf: &mut [u8],
    at: usize,
    start: u16,
    taken: u16,
    instruction: Instruction,
    reading: Reading,
) -> usize
    requires { at + 63 ≤ length buf.old }
    ensures { Put 63 buf.old at (instruction_text reading start taken instruction) buf.new result }
{
    let operation = instruction.operation;
    let written = instruction.written;
    let origin = Origin {
        start,
        taken,
        written,
    };
    let a = put_repeat(buf, at, instruction.repeat);
    let b = put_kept(buf, a, instruction.kept);
    let c = put_name(buf, b, operation);
    let d = put_reach(buf, c, instruction.reach);
    put_operands(buf, d, operation, origin, reading, instruction.operands)
}

// A byte that is not decoded.
fn put_db(buf: &mut [u8], at: usize, byte: u8) -> usize
    requires { at + 5 ≤ length buf.old }
    ensures { Put 5 buf.old at (db_text byte) buf.new result }
{
    let a = put_bytes(buf, at, b"DB ");
    put_hex2(buf, a, byte)
}

// How many bytes a step accounts for.
pub fn step_taken(answer: Answer) -> usize
    ensures { result ≡ step_taken answer }
{
    if answer.result.is_ok() {
        answer.taken
    } else {
        1
    }
}

// What stands behind the bytes: the instruction, or its first byte.
pub fn put_body(
    buf: &mut [u8],
    at: usize,
    start: u16,
    byte: u8,
    answer: Answer,
    reading: Reading,
) -> usize
    requires { (at + 63 ≤ length buf.old) × (step_taken answer < offsets) }
    ensures { Put 63 buf.old at (body_text reading start byte answer) buf.new result }
{
    match answer.result {
        Ok(instruction) => {
            let taken = answer.taken as u16;
            put_instruction(buf, at, start, taken, instruction, reading)
        }
        Err(_) => put_db(buf, at, byte),
    }
}
