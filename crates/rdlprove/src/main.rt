//! The program: it hands its words to the top call, with the files of the host and standard output.
#![tactic(auto)]

use bit_base::text::{Text, text_of};
use prove_top::{Status, run_tool};
use std::alloc::Global;
use std::env;
use std::io::{self, ErrorKind};
use std::process::ExitCode;
use std::rt::Env;
use std::vec::Vec;
use tool_edge::host_depot::HostDepot;
use tool_edge::host_sink::HostSink;

/// The words after the program's name.
fn words_of<R: Env + Alloc<A = Global>>(rt: &R) -> io::Result<Vec<Text>> {
    let mut words = Vec::new(rt.alloc());
    for argument in env::args(rt)?.skip(1) {
        words.push(text_of(rt.alloc(), argument.as_bytes())?)?;
    }
    Ok(words)
}

fn main(rt: HostRuntime) -> ExitCode {
    let mut depot = HostDepot::new(&rt);
    let mut out = HostSink::new(io::writer(&rt));
    let status = match words_of(&rt) {
        Ok(words) => run_tool(rt.alloc(), &words, &mut depot, &mut out).status,
        Err(error) if error.kind() == ErrorKind::OutOfMemory => {
            let _ = rt.println("no memory");
            Status::NoMemory
        }
        Err(_) => run_tool(rt.alloc(), &[], &mut depot, &mut out).status,
    };
    ExitCode::from(status.number())
}
