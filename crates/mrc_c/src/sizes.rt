// The size of an operand for C and Rust, by the kind and the size of its fields, which are numbers in C's record.
ghost use Rattle.std.specs.Prelude.{◌≡◌};
ghost use Rattle.mrc_c.specs.Sizes.{own_size, size_number};

// The size that memory and registers have of their own.
fn own_size(size: u8) -> u8
    ensures { result ≡ own_size size }
{
    if size < 2 { size } else { 2 }
}

// 0 for Byte, 1 for Word, 2 for no size and for a kind or a size that does not exist.
pub fn mrc_operand_size(kind: u8, size: u8) -> u8
    ensures { result ≡ size_number kind size }
{
    let own = own_size(size);
    match kind {
        0 => 2,
        1 => own,
        2 => own,
        3 => own,
        4 => own,
        5 => own,
        6 => 1,
        7 => 0,
        8 => 1,
        9 => 2,
        10 => 0,
        11 => 1,
        _ => 2,
    }
}
