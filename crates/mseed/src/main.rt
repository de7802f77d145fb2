//! `mseed`, the command: audits, lists, selects from and packs archives of seismic waveforms in miniSEED, and serves
//! and fetches their records.
#![tactic(auto)]

mod blame;
mod command;
mod effect;
mod ending;
mod files;
mod outcome;
mod refusal;
mod status;

use effect::carry_out_arguments;
use mseed_feed::TcpTransport;
use mseed_files::System;
use mseed_stream::Counted;
use mseed_words::Process;
use refusal::refuse_memory;
use std::io;
use std::process::ExitCode;

fn main(rt: HostRuntime) -> ExitCode {
    let mut errors = Counted::new(rt.stderr());
    let done = carry_out_arguments(
        &rt,
        &Process::new(&rt),
        &mut System::new(&rt),
        &mut TcpTransport::new(&rt, rt.stdin()),
        &mut Counted::new(io::writer(&rt)),
        &mut errors,
    );
    let status = match done {
        Ok(status) => status,
        Err(_) => refuse_memory(&mut errors),
    };
    ExitCode::from(status)
}
