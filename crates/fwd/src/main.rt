//! `fwd run`: runs a script from standard input, and prints what its lines say on standard output.
#![tactic(auto)]

use fw_base::{ReadSource, WriteSink};
use fw_script::{Status, tell, top_run};
use std::io::ErrorKind;
use std::process::ExitCode;
use std::{env, io};

fn main(rt: HostRuntime) -> ExitCode {
    let status = match words(&rt) {
        Ok(words) => run(&rt, words.as_slice()),
        Err(status) => status,
    };
    let stderr = rt.stderr();
    let mut errors = WriteSink::new(io::writer(&stderr));
    ExitCode::from(tell(status, &mut errors))
}

/// The words of the command line behind the program's name. Words that are no UTF-8 are none that the program takes.
fn words<R: env::Env + AllocGlobal>(rt: &R) -> Result<Vec<String>, Status> {
    let args = env::args(rt).map_err(|error| match error.kind() {
        ErrorKind::OutOfMemory => Status::Memory,
        _ => Status::Usage,
    })?;
    args.skip(1).collect(rt.alloc()).map_err(|_| Status::Memory)
}

/// Runs the program over standard input and output.
fn run<R: Input + Print + AllocGlobal>(rt: &R, words: &[String]) -> Status {
    let mut input = ReadSource::new(rt.reader());
    let mut output = WriteSink::new(io::writer(rt));
    top_run(rt.alloc(), words, &mut input, &mut output).status
}
