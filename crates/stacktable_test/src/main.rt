// Runs stacktable on this crate's stdin, for rt to hold what it prints to this crate's stdout. bin/stacktable is the program with its exit status.
#![tactic(auto)]

use program::run;

fn main(rt: HostRuntime) {
    run(&rt);
}
