//! A command-line program that prints a duration or a timestamp as its canonical string.
//!
//! `humantime duration "2h 37min"` prints `2h 37m`.
#![tactic(auto)]

ghost use Rattle.std.specs.Prelude.{◌≡◌, ◌++◌, map, string_bytes, IfOk, OnOk};
ghost use Rattle.std.specs.Io.KnownBytes.{Keeps};
ghost use Rattle.humantime_cli.specs.Answers.{texts, streams, Runs};

mod command;
mod piece;
mod writing;

use command::FAILED;
pub use command::run;
use std::alloc::{AllocError, Global};
use std::env::{self, Env, FillError};
use std::io::{self, Write};
use std::process::ExitCode;

fn main(rt: HostRuntime) -> ExitCode {
    ExitCode::from(run_program(&rt).unwrap_or(FAILED))
}

/// Runs the command given by the program's arguments with standard output and standard error, and
/// returns the exit status.
fn run_program(rt: &HostRuntime) -> io::Result<u8> {
    let args = env::args(&(AfterName(rt), rt.alloc()))?.collect::<Vec<String>>(rt.alloc())?;
    run_args(rt.alloc(), &args, &mut rt.stdout(), &mut rt.stderr())
}

/// The arguments after the program's name, which may be missing and need not be UTF-8. It has no
/// variables.
#[derive(Clone, Copy)]
struct AfterName<'a>(&'a HostRuntime);

impl Env for AfterName<'_> {
    fn arg(&self, i: usize, buf: &mut [u8]) -> Result<usize, FillError> {
        self.0.arg(i.saturating_add(1), buf)
    }

    fn var(&self, _name: &str, _buf: &mut [u8]) -> Result<usize, FillError> {
        Err(FillError::NotPresent)
    }

    fn var_at(&self, _i: usize, _buf: &mut [u8]) -> Result<usize, FillError> {
        Err(FillError::NotPresent)
    }
}

/// Runs the command given by `args`, flushes `out`, and returns the exit status.
fn run_args<O: Write, E: Write>(
    alloc: Global,
    args: &[String],
    out: &mut O,
    err: &mut E,
) -> io::Result<u8>
    ensures { Runs (map string_bytes args.now) result
        (streams (O.contents out.old) (E.contents err.old))
        (streams (O.contents out.new) (E.contents err.new)) }
{
    let words = words_of(alloc, args)?;
    let status = run(words.as_slice(), out, err);
    flush_after(status, out)
}

/// Flushes `out`, and returns the exit status.
fn flush_after<O: Write>(status: u8, out: &mut O) -> io::Result<u8>
    ensures same { IfOk result (λ returned. returned ≡ status) }
    ensures kept { Keeps (O.contents out.old) (O.contents out.new) }
{
    out.flush()?;
    Ok(status)
}

/// Returns the arguments as string slices.
fn words_of<'a>(alloc: Global, args: &'a [String]) -> Result<Vec<&'a str>, AllocError>
    ensures { IfOk result (λ words. texts words.items ≡ map string_bytes args.now) }
{
    let mut words = Vec::with_capacity(alloc, args.len())?;
    push_words(&mut words, args)?;
    Ok(words)
}

/// Adds the arguments to the words, as string slices.
fn push_words<'a>(words: &mut Vec<&'a str>, mut args: &'a [String]) -> Result<(), AllocError>
    ensures { OnOk result (texts words.new.items
        ≡ texts words.old.items ++ map string_bytes args.now) }
{
    'arguments: while let Some((arg, rest)) = args.split_first() {
        words.push(arg.as_str())?;
        args = rest;
    }
    Ok(())
}
