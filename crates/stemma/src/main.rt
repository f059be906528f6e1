// The program `stemma`: says of a table's file what it holds, or why it is turned away.
#![tactic(auto)]

use std::alloc::AllocGlobal;
use std::env::{self, Env};
use std::fmt::Display;
use std::fs::{self, Files};
use std::io;
use std::process::ExitCode;
use thiserror::Error;

const HELP: &str = "usage: stemma TABLE

Reads the table of readings in the file TABLE and prints one line:
  books N, places M    the table's sizes
  refused N at P       why the file is turned away, and where:
    1 at 0   the number of books is missing, 0 or above 64
    2 at 1   the number of places is missing or above 2,048
    3 at L   the file, of L bytes, has not eight bytes for each place
    4 at P   at the place P a book reads 1 that is not there

The status is 0 after the sizes and 1 after a refusal. It is 1 too where the
file can't be read or the arguments are wrong: then a line on standard error
says so, and nothing is printed.

  --help      print this text
  --version   print the version";

const VERSION: &str = "stemma 0.1.0";

// What the arguments ask for.
#[derive(Drop)]
enum Request {
    Help,
    Version,
    Table(String),
}

// Why there is no answer.
#[derive(Debug, Drop, Error)]
enum Failure {
    #[error("cannot read the arguments, which have to be UTF-8: {0}")]
    Arguments(io::Error),
    #[error("no file is named (try stemma --help)")]
    NoFile,
    #[error("unknown option {0:?} (try stemma --help)")]
    UnknownOption(String),
    #[error("one file is read, not also {0:?} (try stemma --help)")]
    SecondFile(String),
    #[error("cannot read {path:?}: {error}")]
    Reading { path: String, error: io::Error },
    #[error("cannot write the answer: {0}")]
    Writing(io::Error),
}

fn requested(rt: &(impl Env + AllocGlobal)) -> Result<Request, Failure> {
    let mut words = env::args(rt).map_err(Failure::Arguments)?.skip(1);
    let Some(first) = words.next() else {
        return Err(Failure::NoFile);
    };
    match first.as_str() {
        "--help" => Ok(Request::Help),
        "--version" => Ok(Request::Version),
        word if word.starts_with('-') => Err(Failure::UnknownOption(first)),
        _ => match words.next() {
            Some(second) => Err(Failure::SecondFile(second)),
            None => Ok(Request::Table(first)),
        },
    }
}

// Prints the answer, and gives the status that goes with it.
fn print_answer(
    rt: &impl Print,
    answer: impl Display + Drop,
    code: ExitCode,
) -> Result<ExitCode, Failure> {
    rt.println(answer).map_err(Failure::Writing)?;
    Ok(code)
}

// A refusal is an answer too, and ends the program with status 1.
fn answer_table(
    rt: &(impl Files + Print + AllocGlobal),
    path: String,
) -> Result<ExitCode, Failure> {
    let file = fs::read(rt, path.as_str()).map_err(|error| Failure::Reading { path, error })?;
    match readings::read(&file) {
        Ok(rows) => print_answer(rt, rows.sizes, ExitCode::SUCCESS),
        Err(refusal) => print_answer(rt, refusal, ExitCode::FAILURE),
    }
}

fn answer(rt: &(impl Env + Files + Print + AllocGlobal)) -> Result<ExitCode, Failure> {
    match requested(rt)? {
        Request::Help => print_answer(rt, HELP, ExitCode::SUCCESS),
        Request::Version => print_answer(rt, VERSION, ExitCode::SUCCESS),
        Request::Table(path) => answer_table(rt, path),
    }
}

fn main(rt: HostRuntime) -> ExitCode {
    match answer(&rt) {
        Ok(code) => code,
        Err(failure) => {
            let _ = eprintln!(rt; "stemma: {failure}");
            ExitCode::FAILURE
        }
    }
}
