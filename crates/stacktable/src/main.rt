// The program stacktable: the function of crate program, whose answer is a `Status`; its number, 0, 1 or 2, is the exit status.
#![tactic(auto)]

ghost use Rattle.std.specs.Prelude.{◌≤◌};

use program::run;
use std::process::ExitCode;

// A number, since it is the exit status that the system is handed.
pub fn stacktable_run(rt: &HostRuntime) -> u32
    ensures { result ≤ 2 }
{
    run(rt).number()
}

fn main(rt: HostRuntime) -> ExitCode {
    let status = stacktable_run(&rt);
    ExitCode::from(status as u8)
}
