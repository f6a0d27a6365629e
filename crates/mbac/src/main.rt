//! `mbac`: PSL assertions compiled to Verilog checkers.
#![tactic(auto)]

use mbac_io::{StdInputs, StdSink};
use mbac_top::{compile_file, run, run_without_words};
use std::alloc::AllocError;
use std::env;
use std::io::ErrorKind;
use std::process::ExitCode;
use std::rt::Env;

fn main(rt: HostRuntime) -> ExitCode {
    let mut notes = StdSink::new(rt.stderr());
    let outcome = match words(&rt) {
        Ok(words) => {
            let mut inputs = StdInputs::new(&rt, compile_file(&words), None);
            let mut out = StdSink::new(rt.stdout());
            run(rt.alloc(), &words, &mut inputs, &mut out, &mut notes)
        }
        Err(AllocError) => run_without_words(&mut notes),
    };
    ExitCode::from(outcome.status)
}

/// The words after the program's name. Arguments that are no text are no words of a command.
fn words<R: Env + AllocGlobal>(rt: &R) -> Result<Vec<String>, AllocError> {
    let arguments = match env::args(rt) {
        Ok(arguments) => arguments,
        Err(error) if error.kind() == ErrorKind::OutOfMemory => return Err(AllocError),
        Err(_) => return Ok(Vec::new(rt.alloc())),
    };
    let mut words = Vec::new(rt.alloc());
    for word in arguments.skip(1) {
        words.push(word)?;
    }
    Ok(words)
}
