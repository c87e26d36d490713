// The static library that C and Rust link: each call of include/mrc.h by its name there, as mrc_c answers it and with the clauses that it has there.
#![tactic(auto)]

ghost use Rattle.std.specs.Prelude.{◌≡◌};
ghost use Rattle.mrc_instruction.specs.Register.{register_field, segment_field};
ghost use Rattle.mrc_instruction.specs.Operand.{addressing_field};
ghost use Rattle.mrc_instruction.specs.Reader.{read_at};
ghost use Rattle.mrc_instruction.specs.Mrrm.{a_modrm};
ghost use Rattle.mrc_instruction.specs.Read.{mrrm_read};
ghost use Rattle.mrc_rules.specs.Decode.{decode_at};
ghost use Rattle.mrc_c.specs.Readings.{reading_of};
ghost use Rattle.mrc_c.specs.Record.{record_of, Written};
ghost use Rattle.mrc_c.specs.Modrm.{modrm_of, ModrmWritten};
ghost use Rattle.mrc_c.specs.Step.{step_code};
ghost use Rattle.mrc_c.specs.Fields.{register_number, segment_number, addressing_number};
ghost use Rattle.mrc_c.specs.Sizes.{size_number};
ghost use Rattle.mrc_c.specs.Line.{LineWritten};
ghost use Rattle.mrc_c.specs.Page.{PageWritten};

#[unsafe(no_mangle)]
pub extern "C" fn mrc_decode(s: &[u8], at: usize, budget: u8, reading: u8, out: &mut [u64; 5])
    ensures { Written (record_of (decode_at (reading_of reading) s.now at budget)) out.new }
{
    mrc_c::decode::mrc_decode(s, at, budget, reading, out);
}

#[unsafe(no_mangle)]
pub extern "C" fn mrc_mrrm(s: &[u8], at: usize, out: &mut [u64; 2])
    ensures { ModrmWritten (modrm_of (mrrm_read (read_at a_modrm s.now at))) out.new }
{
    mrc_c::modrm::mrc_mrrm(s, at, out);
}

#[unsafe(no_mangle)]
pub extern "C" fn mrc_step(s: &[u8], at: usize, budget: u8, reading: u8) -> u64
    ensures { result ≡ step_code (decode_at (reading_of reading) s.now at budget) }
{
    mrc_c::step::mrc_step(s, at, budget, reading)
}

#[unsafe(no_mangle)]
pub extern "C" fn mrc_register(field: u8) -> u32
    ensures { result ≡ register_number (register_field field) }
{
    mrc_c::fields::mrc_register(field)
}

#[unsafe(no_mangle)]
pub extern "C" fn mrc_segment(field: u8) -> u32
    ensures { result ≡ segment_number (segment_field field) }
{
    mrc_c::fields::mrc_segment(field)
}

#[unsafe(no_mangle)]
pub extern "C" fn mrc_addressing(field: u8) -> u32
    ensures { result ≡ addressing_number (addressing_field field) }
{
    mrc_c::fields::mrc_addressing(field)
}

#[unsafe(no_mangle)]
pub extern "C" fn mrc_operand_size(kind: u8, size: u8) -> u8
    ensures { result ≡ size_number kind size }
{
    mrc_c::sizes::mrc_operand_size(kind, size)
}

#[unsafe(no_mangle)]
pub extern "C" fn mrc_line(image: &[u8], at: usize, reading: u8, out: &mut [u8]) -> u64
    ensures { LineWritten (reading_of reading) image.now at out.old result out.new }
{
    mrc_c::line::mrc_line(image, at, reading, out)
}

#[unsafe(no_mangle)]
pub extern "C" fn mrc_page(image: &[u8], at: usize, reading: u8, out: &mut [u8]) -> u64
    ensures { PageWritten (reading_of reading) image.now at out.old result out.new }
{
    mrc_c::page::mrc_page(image, at, reading, out)
}
