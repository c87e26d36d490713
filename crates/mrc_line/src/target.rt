// The target of a branch.
ghost use Rattle.std.specs.Prelude.{◌≡◌};
ghost use Rattle.mrc_line.specs.Target.{moved_by, target_of};

use mrc_instruction::operand::Displacement;

// An offset and a displacement, by a difference or a sum of u16 that wraps: one of the forms by place, which `wrapping_add_signed` is not.
fn moved(from: u16, d: i16) -> u16
    ensures { result ≡ moved_by from d }
{
    let size = d.unsigned_abs();
    if d < 0 {
        from.wrapping_sub(size)
    } else {
        from.wrapping_add(size)
    }
}

// The target: start, bytes taken and displacement added, modulo 65,536. (No `Origin`: it does not ask how many displacement bytes were written.)
pub fn target(start: u16, taken: u16, d: Displacement) -> u16
    ensures { result ≡ target_of start taken d }
{
    let next = start.wrapping_add(taken);
    match d {
        Displacement::None => next,
        Displacement::Byte(b) => moved(next, b as i16),
        Displacement::Word(w) => moved(next, w),
    }
}
