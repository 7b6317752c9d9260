//! `letting`: the daily system of a property letting agency. What it does, `exit_code` says.
#![tactic(auto)]

use dh_jobs::{Unknown, exit_code};
use std::process::ExitCode;
use std::{env, io};

fn main(rt: HostRuntime) -> ExitCode {
    let mut writer = io::writer(&rt);
    let code = exit_code(&rt, Unknown, env::args(&rt), &mut rt.reader(), &mut writer);
    ExitCode::from(code)
}
