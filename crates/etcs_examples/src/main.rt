//! Four example programs over the library. The first word picks one, which reads standard input; without a word all of them
//! run in turn, over their files in the working directory, where the gate puts those of data/.
#![tactic(auto)]

use std::io::BufReader;
use std::process::ExitCode;
use std::{env, fs};

mod log_reader;
mod programmer;
mod simulator;
mod stamper;

fn main(rt: HostRuntime) -> anyhow::Result<ExitCode> {
    match env::args(&rt)?.nth(1) {
        Some(name) => one(rt, name.as_str()),
        None => all(rt),
    }
}

/// Runs the example of this name over standard input.
fn one(rt: HostRuntime, name: &str) -> anyhow::Result<ExitCode> {
    match name {
        "simulator" => simulator::run(rt)?,
        "log_reader" => log_reader::run(rt, BufReader::new(rt.alloc(), rt.reader())?)?,
        "programmer" => programmer::run(rt, BufReader::new(rt.alloc(), rt.reader())?)?,
        "stamper" => stamper::run(rt, BufReader::new(rt.alloc(), rt.reader())?)?,
        _ => {
            eprintln!(rt; "usage: etcs_examples [simulator | log_reader | programmer | stamper]")?;
            return Ok(ExitCode::from(2));
        }
    }
    Ok(ExitCode::SUCCESS)
}

/// Runs all examples; those that read get their files.
fn all(rt: HostRuntime) -> anyhow::Result<ExitCode> {
    simulator::run(rt)?;
    let log = fs::open(&rt, "log_reader.txt")?;
    log_reader::run(rt, BufReader::new(rt.alloc(), log)?)?;
    let telegrams = fs::open(&rt, "programmer.txt")?;
    programmer::run(rt, BufReader::new(rt.alloc(), telegrams)?)?;
    let messages = fs::open(&rt, "stamper.txt")?;
    stamper::run(rt, BufReader::new(rt.alloc(), messages)?)?;
    Ok(ExitCode::SUCCESS)
}
