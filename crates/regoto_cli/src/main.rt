//! The program `regoto`: hands the system's files, streams and words to `regoto::regoto`.
#![tactic(auto)]

use regoto::{Status, regoto};
use rg_system::{ErrPort, FileShelf, InPort, OutPort};
use std::alloc::Global;
use std::env;
use std::io::ErrorKind;
use std::process::ExitCode;
use std::rt::Env;

/// The words after the program's name. Words that the system doesn't hand over as texts are one empty
/// word, which fits no form; `None` where memory was refused.
fn words<R: Env + AllocGlobal>(runtime: &R) -> Option<Vec<String>> {
    let mut words = Vec::new(runtime.alloc());
    match env::args(runtime) {
        Ok(all) => {
            for word in all.skip(1) {
                if words.push(word).is_err() {
                    return None;
                }
            }
        }
        Err(error) => {
            if error.kind() == ErrorKind::OutOfMemory {
                return None;
            }
            let empty = String::new(runtime.alloc());
            if words.push(empty).is_err() {
                return None;
            }
        }
    }
    Some(words)
}

fn main(rt: HostRuntime) -> ExitCode {
    let status = match words(&rt) {
        Some(words) => {
            let mut shelf = FileShelf::new(&rt);
            let mut input = InPort::new(&rt);
            let mut out = OutPort::new(&rt);
            let mut err = ErrPort::new(&rt);
            regoto(
                rt.alloc(),
                &words,
                &mut shelf,
                &mut input,
                &mut out,
                &mut err,
            )
        }
        None => Status::Memory,
    };
    ExitCode::from(status.code())
}

#[cfg(test)]
mod tests;
