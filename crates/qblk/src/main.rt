//! The block layer of QEMU as a program: `qblk io FORMAT IMAGE TRACE` runs a trace of reads and writes on a raw or qcow2
//! image, `qblk run 1 SCRIPT GUEST=TRACE ..` a script of commands and the traces of its guests, and each writes its transcript
//! to standard output.
#![tactic(auto)]

mod report;

use crate::report::{print_flaw, print_status};
use blk_base::{FaultFrom, Text};
use blk_files::{Failure, FileStore, OutSink, print_failure};
pub use qblk_core::{Format, InputWhy, Status, run_io};
pub use qblk_run::{qblk, run_script};
use std::alloc::Global;
use std::fs::File;
use std::io::{ErrorKind, Write};
use std::process::ExitCode;
use std::rt::{Env, Files};
use std::{env, io};

/// The words behind the program's name. Words that aren't UTF-8 are of no form.
fn words_of<R: Env + AllocGlobal>(rt: &R, alloc: Global) -> Result<Vec<Text>, Status> {
    let args = match env::args(rt) {
        Ok(args) => args,
        Err(error) if error.kind() == ErrorKind::InvalidData => return Err(Status::Usage),
        Err(_) => return Err(Status::NoMemory),
    };
    let mut words = Vec::new(alloc);
    for word in args.skip(1) {
        if words.push(Text::from_string(word)).is_err() {
            return Err(Status::NoMemory);
        }
    }
    Ok(words)
}

/// What the system said of the fault that a status names. Of one of the store it was told when it came.
fn failure_of<'a, R: Files + Eprint, W: Write>(
    status: &Status,
    store: &'a FileStore<'_, R>,
    out: &OutSink<W>,
) -> Option<Failure<'a>> {
    let Status::Fault { from, .. } = status else {
        return None;
    };
    match from {
        FaultFrom::Store => None,
        FaultFrom::Dev(dev) => store.failure_of(dev.0 as usize),
        FaultFrom::Sink => Some(Failure {
            name: "standard output",
            error: out.failure()?,
        }),
    }
}

/// Does what the words say on the system's files, and tells on standard error how it ended.
fn run_on_system<R: Files<File = File> + Print + Eprint>(
    rt: &R,
    alloc: Global,
    words: &[Text],
) -> Status {
    let mut out = OutSink::new(io::writer(rt));
    let (status, store) = qblk(alloc, words, FileStore::new(rt, alloc), &mut out);
    if !matches!(status, Status::Done) {
        print_status(rt, alloc, &status);
        print_flaw(rt, alloc, &status);
    }
    if let Some(failure) = failure_of(&status, &store, &out) {
        print_failure(rt, alloc, failure.name, failure.error);
    }
    status
}

fn main(rt: HostRuntime) -> ExitCode {
    let alloc = rt.alloc();
    let status = match words_of(&rt, alloc) {
        Ok(words) => run_on_system(&rt, alloc, &words),
        Err(status) => {
            print_status(&rt, alloc, &status);
            status
        }
    };
    ExitCode::from(status.exit())
}
