// The reading that a number names: C has no other way to say it.
ghost use Rattle.std.specs.Prelude.{◌≡◌};
ghost use Rattle.mrc_c.specs.Readings.{reading_of};

use mrc_instruction::reading::Reading;

// 2 is the manual's, and every other number the first.
pub fn reading_of(number: u8) -> Reading
    ensures { result ≡ reading_of number }
{
    if number == 2 {
        Reading::Two
    } else {
        Reading::One
    }
}
