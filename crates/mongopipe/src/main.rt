//! Runs an aggregation command over the BSON files of a cluster, and writes its results.
#![tactic(auto)]

use aggregate_command::{Status, aggregate, put_all};
use bson_value::{Text, TextError};
use command_words::own_answer;
use mq_ports::{DiskFiles, DiskSpill, DiskTarget, IoError, OutSink, Sink};
use std::alloc::Global;
use std::env;
use std::io::ErrorKind;
use std::process::ExitCode;

// The words of the command line behind the program's name.
fn words_of(rt: &HostRuntime) -> Result<Vec<Text>, Status> {
    let arguments = match env::args(rt) {
        Ok(arguments) => arguments,
        Err(e) if e.kind() == ErrorKind::OutOfMemory => return Err(Status::Memory),
        Err(_) => return Err(Status::Usage),
    };
    let alloc = rt.alloc();
    let mut words = Vec::new(alloc);
    for argument in arguments.skip(1) {
        match Text::read(alloc, argument.as_str().as_bytes()) {
            Ok(word) => {
                if words.push(word).is_err() {
                    return Err(Status::Memory);
                }
            }
            Err(TextError::NotText) => return Err(Status::Usage),
            Err(TextError::Memory) => return Err(Status::Memory),
        }
    }
    Ok(words)
}

// Puts the program's answer about itself.
fn answer<O: Sink>(out: &mut O, text: &str) -> Status {
    match put_all(out, text.as_bytes()) {
        Ok(()) => Status::Done,
        Err(IoError::Failed) => Status::WriteFault,
        Err(IoError::Memory) => Status::Memory,
    }
}

// Ends without the call: puts the status's line, where it is a refusal.
fn end<E: Sink>(notes: &mut E, status: Status) -> ExitCode {
    let line = match status {
        Status::Usage => "error: usage\n",
        Status::WriteFault => "error: write fault\n",
        Status::Memory => "error: memory\n",
        _ => "",
    };
    let _ = put_all(notes, line.as_bytes());
    ExitCode::from(status.code())
}

fn main(rt: HostRuntime) -> ExitCode {
    let alloc = rt.alloc();
    let mut notes = OutSink::new(rt.stderr());
    let words = match words_of(&rt) {
        Ok(words) => words,
        Err(status) => return end(&mut notes, status),
    };
    let mut out = OutSink::new(rt.stdout());
    if let Some(text) = own_answer(words.as_slice()) {
        return end(&mut notes, answer(&mut out, text));
    }
    let mut files = DiskFiles::new(alloc, &rt);
    let mut spill = DiskSpill::new();
    let mut target = DiskTarget::new();
    let status = aggregate(
        alloc,
        words.as_slice(),
        &mut files,
        &mut out,
        &mut notes,
        &mut spill,
        &mut target,
    );
    ExitCode::from(status.code())
}
