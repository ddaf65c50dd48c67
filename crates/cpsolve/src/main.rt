//! `cpsolve` reads a constraint model in text form. It searches the model for a best solution and writes a response, or
//! says that the model is valid, or writes it in canonical form. It also generates models, and writes them or solves
//! them, and checks a response by the log of its proof.
//!
//! `solve_main` of `cps_program` is the whole program, and its contract says what it does. `main` hands it the words,
//! standard input and standard output.
#![tactic(auto)]

use cps_outer::{OpenGate, StdSink, StdSource};
use cps_program::{OUT_OF_MEMORY, solve_main};
use std::alloc::{Alloc, AllocError, Global};
use std::env::{self, Env};
use std::io::ErrorKind;
use std::process::ExitCode;

/// The words of the command line, the program's name first. Where one of them is no text there are none, which is no
/// command line either. The only other error of `args` is that memory ran out.
fn words_of<R: Env + Alloc<A = Global>>(rt: &R) -> Result<Vec<String>, AllocError> {
    match env::args(rt) {
        Ok(words) => words.collect(rt.alloc()),
        Err(error) if error.kind() == ErrorKind::InvalidData => Ok(Vec::new(rt.alloc())),
        Err(_) => Err(AllocError),
    }
}

fn main(rt: HostRuntime) -> ExitCode {
    let alloc = rt.alloc();
    let Ok(words) = words_of(&rt) else {
        return ExitCode::from(OUT_OF_MEMORY);
    };
    let mut source = StdSource::new(rt.stdin());
    let mut sink = StdSink::new(rt.stdout());
    let ran = solve_main(&rt, alloc, &words, &mut source, &mut sink, &OpenGate);
    ExitCode::from(ran.exit)
}
