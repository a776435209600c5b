//! `thinmon run [--moves] [FILE]` plays a script of monitor steps and prints its report or its
//! history, `thinmon dump [FILE]` a dump of its last world; `thinmon check [FILE]` judges a
//! history; `thinmon live [FILE]` runs the threads of a live script on threads of the system;
//! `thinmon explore [--any] [--moves] [--states N] [FILE]` tells every outcome of a program, with
//! `--any` of that program on the Java machine itself, each with a script or a history that leads
//! to it; `thinmon draw [--moves] [--from N] [--to M] [FILE]` draws a script or a history.
//!
//! `docs/FORMATS.md` has the forms of scripts, reports, dumps, histories, live scripts and
//! programs, and `docs/DRAW.md` says what a picture shows.
#![tactic(auto)]

use command_line::serve;
use std::io::IsTerminal;
use std::process::ExitCode;

fn main(rt: HostRuntime) -> ExitCode {
    serve(&rt, rt.stderr().is_terminal())
}
