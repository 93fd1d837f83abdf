//! Runs the cases of the files that its words name, each of them `persist` against a target in
//! memory, and tells a line about each.
#![tactic(auto)]

mod case;
mod flaw;
mod reading;
mod running;
mod sweeping;
mod targets;

use reading::read_cases;
use std::process::ExitCode;
use std::{env, fs, io};
use sweeping::try_case;

fn main(rt: HostRuntime) -> io::Result<ExitCode> {
    let files: Vec<String> = env::args(&rt)?.collect(rt.alloc())?;
    let mut status = 0;
    for file in files.iter().skip(1) {
        if !are_met(&rt, file.as_str())? {
            status = 1;
        }
    }
    Ok(ExitCode::from(status))
}

/// Runs the cases of a file, and tells whether all of them are as they must be.
fn are_met(rt: &HostRuntime, file: &str) -> io::Result<bool> {
    let alloc = rt.alloc();
    let text = fs::read_to_string(rt, file)?;
    let cases = match read_cases(alloc, text.as_str()) {
        Ok(cases) => cases,
        Err(refusal) => {
            println!(rt; "{file}:{}: {}", refusal.line, refusal.flaw)?;
            return Ok(false);
        }
    };
    let mut differing = 0usize;
    for case in &cases {
        match try_case(alloc, case) {
            Ok(()) => println!(rt; "ok {}", case.name)?,
            Err(flaw) => {
                println!(rt; "differs: {}: {flaw}", case.name)?;
                differing = differing.saturating_add(1);
            }
        }
    }
    Ok(differing == 0)
}
