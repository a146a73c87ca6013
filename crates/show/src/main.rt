// Prints what a request file holds, a line for each record.
#![tactic(auto)]

mod words;

use crate::words::Words;
use input::read_file;
use orders::refusal::Cause;
use orders::request::Request;
use request_file::reader::{Located, Reader};
use std::io;

fn main(rt: HostRuntime) -> io::Result<()> {
    let Some(file) = read_file(&rt)? else {
        return println!(rt; "too long");
    };
    show(&rt, file.as_slice())
}

fn show(rt: &impl Print, file: &[u8]) -> io::Result<()> {
    let mut read = 0usize;
    for item in Reader::over(file) {
        let line = read.saturating_add(1);
        match item {
            Ok(located) => {
                read = line;
                show_record(rt, line, &located)?;
            }
            Err(fault) => show_refusal(rt, line, fault.offset, fault.cause)?,
        }
    }
    println!(rt; "read {read}")
}

fn show_record(rt: &impl Print, line: usize, located: &Located) -> io::Result<()> {
    let offset = located.offset;
    match Request::try_from(&located.record.row()) {
        Ok(request) => println!(rt; "{line} at {offset} {}", Words { request }),
        Err(cause) => show_refusal(rt, line, offset, cause),
    }
}

fn show_refusal(rt: &impl Print, line: usize, offset: usize, cause: Cause) -> io::Result<()> {
    println!(rt; "{line} at {offset} refused {} {cause}", cause.number())
}
