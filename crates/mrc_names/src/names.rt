// An operation's name, found among the letters by its start and its length, and the writing of one.
ghost use Rattle.std.specs.Prelude.{◌≡◌};
ghost use Rattle.mrc_names.specs.Names.{letters, name_of, letters_written, written};

use crate::places::place;
use mrc_instruction::operation::Operation;

// The most letters that a name has.
const MOST: usize = 6;

// The letters of all names, end to end in the operations' order.
fn letters() -> &'static [u8]
    ensures { result.now ≡ letters }
{
    b"MOVPUSHPOPXCHGINOUTXLATBLEALDSLESLAHFSAHFPUSHFPOPFADDADCINCAAADAASUBSBB\
    DECNEGCMPAASDASMULIMULAAMDIVIDIVAADCBWCWDNOTSHLSHRSARROLRORRCLRCRANDTEST\
    ORXORMOVSBMOVSWCMPSBCMPSWSCASBSCASWLODSBLODSWSTOSBSTOSWCALLJMPRETJEJLJLE\
    JBJBEJPJOJSJNEJNLJNLEJNBJNBEJNPJNOJNSLOOPLOOPZLOOPNZJCXZINTINT1INT3INTO\
    IRETCLCCMCSTCCLDSTDCLISTIHLTWAITESCLOCKNOPSALC"
}

// An operation's name. Its place is one byte, since program memory is short: a pair of a start and a length takes 1,415 bytes more.
pub fn name(operation: Operation) -> &'static [u8]
    ensures { result.now ≡ name_of operation }
{
    let place = place(operation);
    let start = 7 * (operation.number() as usize) / 2 + ((place / 8) as usize) - 13;
    let length = 2 + ((place % 8) as usize);
    &letters()[start..start + length]
}

// Writes a name at the front of `out`, and answers how many letters it has. Where less is lent than the longest name has, it writes nothing and answers 0.
// The letters are counted by hand: `copy_from_slice` calls the C library, which takes 46 instructions a line more, and
// of what a loop over a `zip` with `iter_mut` has written, no law of the library tells.
pub fn write_name(out: &mut [u8], operation: Operation) -> usize
    ensures { (result ≡ letters_written operation out.old) × (out.new ≡ written operation out.old) }
{
    if out.len() < MOST {
        return 0;
    }
    let name = name(operation);
    let mut i = 0;
    while i < MOST && i < name.len() {
        out[i] = name[i];
        i += 1;
    }
    name.len()
}
