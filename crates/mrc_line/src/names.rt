// The name of an operation.
ghost use Rattle.std.specs.Prelude.{◌+◌, ◌≤◌, length};
ghost use Rattle.mrc_names.specs.Names.{name_of};
ghost use Rattle.mrc_line.specs.Text.{Put};

use mrc_instruction::operation::Operation;
use mrc_names::names::write_name;

pub fn put_name(buf: &mut [u8], at: usize, operation: Operation) -> usize
    requires { at + 6 ≤ length buf.old }
    ensures { Put 6 buf.old at (name_of operation) buf.new result }
{
    let n = write_name(&mut buf[at..], operation);
    at + n
}
