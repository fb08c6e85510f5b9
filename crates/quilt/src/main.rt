//! The program: runs what its words ask for on a real file, standard input and standard output.
#![tactic(auto)]

mod report;
mod room;
mod run;

use crate::run::run;
use quilt_host::Machine;
use std::process::ExitCode;

fn main(rt: HostRuntime) -> ExitCode {
    let ran = run(&rt, rt.alloc(), Machine::new(&rt));
    ran.code
}
