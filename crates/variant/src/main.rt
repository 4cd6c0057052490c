// The command `variant`; crates/command has what it does.
#![tactic(auto)]

use std::io;

fn main(rt: HostRuntime) -> io::Result<()> {
    command::run(&rt, &mut rt.stderr())
}
