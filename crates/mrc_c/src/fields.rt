// The field readers for C and Rust: the code, or 65,536 times the refusal's number and its byte.
ghost use Rattle.std.specs.Prelude.{◌≡◌, MatchResult};
ghost use Rattle.mrc_instruction.specs.Values.{refused_with};
ghost use Rattle.mrc_instruction.specs.Register.{register_field, segment_field};
ghost use Rattle.mrc_instruction.specs.Operand.{addressing_field};
ghost use Rattle.mrc_c.specs.Fields.{refusal_code, register_number, segment_number, addressing_number};

use mrc_instruction::errors::Refusal;
use mrc_instruction::operand::AddressingMode;
use mrc_instruction::register::{RegisterEncoding, Segment};
use mrc_instruction::widths::WORDS;

fn refusal_code(refusal: Refusal) -> u32
    ensures { result ≡ refusal_code (refused_with refusal 0 0) }
{
    (WORDS as u32) * u32::from(refusal.number()) + u32::from(refusal.byte())
}

// The code of what a field names, or that of the refusal.
fn field_code<T: Into<u8>>(named: Result<T, Refusal>) -> u32
    ensures { MatchResult named (λ t. T.converts t result) (λ e. result ≡ refusal_code (refused_with e 0 0)) }
{
    match named {
        Ok(named) => u32::from(named.into()),
        Err(refusal) => refusal_code(refusal),
    }
}

pub fn mrc_register(field: u8) -> u32
    ensures { result ≡ register_number (register_field field) }
{
    field_code(RegisterEncoding::try_from(field))
}

pub fn mrc_segment(field: u8) -> u32
    ensures { result ≡ segment_number (segment_field field) }
{
    field_code(Segment::try_from(field))
}

pub fn mrc_addressing(field: u8) -> u32
    ensures { result ≡ addressing_number (addressing_field field) }
{
    field_code(AddressingMode::try_from(field))
}
