//! Runs the conversations of the files that its words name, and tells a line about each.
#![tactic(auto)]

mod case;
mod flaw;
mod number;
mod reading;
mod running;
mod script;
mod spelling;

use case::Case;
use reading::read_file;
use running::{Cut, Verdict, try_case};
use script::Script;
use std::process::ExitCode;
use std::{env, fs, io};

fn main(rt: HostRuntime) -> io::Result<ExitCode> {
    let alloc = rt.alloc();
    let files: Vec<String> = env::args(&rt)?.collect(alloc)?;
    let mut script = Script::new(alloc);
    let mut all_met = true;
    for file in files.iter().skip(1) {
        all_met &= try_file(&rt, &mut script, file.as_str())?;
    }
    Ok(ExitCode::from(if all_met { 0 } else { 1 }))
}

/// Runs the cases of a file, and tells whether it was read and all of them are as they must be.
fn try_file(rt: &HostRuntime, script: &mut Script, file: &str) -> io::Result<bool> {
    let alloc = rt.alloc();
    let text = fs::read_to_string(rt, file)?;
    if let Err(refusal) = read_file(alloc, script, text.as_str()) {
        println!(rt; "{file}:{}: {}", refusal.line, refusal.flaw)?;
        return Ok(false);
    }
    let mut all_met = true;
    for case in &script.take_cases(alloc) {
        all_met &= tell(rt, case)?;
    }
    Ok(all_met)
}

/// Runs a case and prints its line.
fn tell(rt: &HostRuntime, case: &Case) -> io::Result<bool> {
    let name = case.name.as_str();
    let (cut, verdict) = match try_case(rt.alloc(), case) {
        Ok(tried) => tried,
        Err(flaw) => {
            println!(rt; "not run: {name}: {flaw}")?;
            return Ok(false);
        }
    };
    match verdict {
        Verdict::Met => println!(rt; "ok {name}")?,
        Verdict::OtherExit(exit) => println!(rt; "differs: {name}: cut {cut:?}: {exit:?}")?,
        Verdict::OtherBytes(at) => println!(rt;
            "differs: {name}: cut {cut:?}: byte {at} of the output"
        )?,
    }
    Ok(verdict == Verdict::Met)
}
