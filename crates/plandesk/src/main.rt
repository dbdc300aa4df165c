//! The program: reads its arguments and runs the command that they ask for.
//!
//! # Proved
//!
//! - `run_job`: what a job is for the store that it opens, by the exit status (`RunsJob`). `run`
//!   hands that up for some job.
//! - Of the other functions: safety and termination.
//!
//! # Not proved
//!
//! That each command is given its arguments; tests run the program.
#![tactic(auto)]

mod run;
mod serving;

use crate::run::run;
use command_output::status::Status;
use file_commands::given::all_words;
use sector_file::{Contents, Unknown};
use std::process::ExitCode;
use std::sync::Wait;
use std::thread::Threads;
use std::time::Clock;

fn run_words<T: Threads + Wait + Clock + Copy + Send + Sync + 'static, S: Contents + Send + Sync>(
    rt: &HostRuntime,
    threads: &T,
    start: S,
) -> Result<Status, Status> {
    let words = all_words(rt)?;
    let mut texts = Vec::with_capacity(rt.alloc(), words.len())?;
    for word in &words {
        if texts.push(word.as_str()).is_err() {
            return Err(Status::Memory);
        }
    }
    Ok(run(rt, threads, texts.as_slice(), start))
}

/// What a store's file holds is not known here: all below is proved whatever it holds, and this is the one place that names it.
fn main(rt: HostRuntime) -> ExitCode {
    match run_words(&rt, &rt, Unknown) {
        Ok(status) => ExitCode::from(status.code()),
        Err(status) => ExitCode::from(status.code()),
    }
}
