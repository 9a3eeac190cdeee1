//! `cilkm COMMAND [KEY=NUMBER]..`: compiles a source from standard input and runs it on a verified machine, or finds what
//! it means.
//!
//! This file makes the real streams and ends with the status; `still` does the rest.
#![tactic(auto)]

mod built;
mod command;
mod cut;
mod pieces;
mod program;
mod refusal;
mod setting;
mod still;
#[cfg(test)]
mod tests;
mod verdict;

use cm_text::{RealSink, RealSource};
use std::process::ExitCode;
use std::rt::Env;
use std::{env, io};
use still::{refuse_words, still};

fn main(rt: HostRuntime) -> ExitCode {
    let mut source = RealSource::new(rt.stdin());
    let mut sink = RealSink::new(rt.stdout());
    let status = match answer_words(&rt, &mut source, &mut sink) {
        Ok(status) => status,
        Err(error) => refuse_words(rt.alloc(), &error, &mut sink),
    };
    ExitCode::from(status)
}

/// Calls `still` with the words after the program's name, and gives its status. An error says why they
/// can't be had: there is no memory for them, or some word is no text.
fn answer_words(
    rt: &(impl Env + AllocGlobal),
    source: &mut RealSource,
    sink: &mut RealSink,
) -> io::Result<u8> {
    let words: Vec<String> = env::args(rt)?.skip(1).collect(rt.alloc())?;
    let texts: Vec<&str> = words.iter().map(|word| word.as_str()).collect(rt.alloc())?;
    Ok(still(rt.alloc(), texts.as_slice(), source, sink))
}
