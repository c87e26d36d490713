// Lists the ROM image that standard input holds.
#![tactic(auto)]

use std::process::ExitCode;

fn main(rt: HostRuntime) -> ExitCode {
    mrc_list::list(&rt)
}
