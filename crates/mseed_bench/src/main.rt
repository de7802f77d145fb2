//! `mseed_bench`, which runs the jobs that users wait for over archives of its own making, and prints a digest of what
//! comes of them.
#![tactic(auto)]

mod archive;
mod audits;
mod bench;
mod digest;
mod failure;
mod feeds;
mod joins;
mod links;
mod noise;
mod repacks;
mod samples;
mod scale;
mod shape;
mod survey;

use bench::Bench;
use failure::Failure;
use noise::Noise;
use scale::Scale;
use std::alloc::Global;
use std::process::ExitCode;
use std::{env, io};

/// The jobs, in the order in which a small run takes them.
const JOBS: [&str; 6] = ["audit", "survey", "samples", "repack", "join", "feed"];

fn main(rt: HostRuntime) -> io::Result<ExitCode> {
    let mut words = Vec::new(rt.alloc());
    for word in env::args(&rt)?.skip(1) {
        words.push(word)?;
    }
    match run(rt.alloc(), &words) {
        Ok(digest) => {
            println!(rt; "{digest}")?;
            Ok(ExitCode::SUCCESS)
        }
        Err(failure) => {
            eprintln!(rt; "mseed_bench: {failure}")?;
            Ok(ExitCode::FAILURE)
        }
    }
}

/// Runs the job that the first word names, with the second one as its seed, or with `small` all of them over small
/// archives. The digest of what came of them.
fn run(alloc: Global, words: &[String]) -> Result<u64, Failure> {
    let [job, seed] = words else {
        return Err(Failure::Words);
    };
    let Ok(seed) = seed.as_str().parse::<u64>() else {
        return Err(Failure::Words);
    };
    if job.as_str() != "small" {
        let mut bench = Bench::new(alloc, Scale::Full);
        run_job(&mut bench, job.as_str(), seed)?;
        return Ok(bench.digest.value());
    }
    let mut bench = Bench::new(alloc, Scale::Small);
    for job in JOBS {
        run_job(&mut bench, job, seed)?;
    }
    Ok(bench.digest.value())
}

/// Runs a job over archives of this seed.
fn run_job(bench: &mut Bench, job: &str, seed: u64) -> Result<(), Failure> {
    bench.noise = Noise::new(seed);
    match job {
        "audit" => audits::run(bench),
        "survey" => survey::run(bench),
        "samples" => samples::run(bench),
        "repack" => repacks::run(bench),
        "join" => joins::run(bench),
        "feed" => feeds::run(bench),
        _ => Err(Failure::Words),
    }
}
