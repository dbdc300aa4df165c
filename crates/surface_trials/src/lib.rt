//! Tests that call each public call of the rooms by its path, with enough memory.
//!
//! # Notes
//!
//! Each answer is compared with a worked example of the sample geography: blocks a and b in county
//! 001, blocks c and d in county 003. seat_trials has the calls of a gallery, of seats and of
//! worlds, and clerk_trials those of a migration. Audits by several threads are checked by what
//! passes the gate between workers.
#![tactic(auto)]

/// Asserts a fact on which no later step rests. It is a call where `assert!` is a branch, which is dearer to prove.
#[cfg(test)]
macro_rules! holds {
    ($rt:expr; $fact:expr) => {
        $crate::facts::holds($rt, $fact, stringify!($fact))
    };
}

#[cfg(test)]
mod audits;
#[cfg(test)]
mod clerks;
#[cfg(test)]
mod devices;
#[cfg(test)]
mod facts;
#[cfg(test)]
mod files;
#[cfg(test)]
mod models;
#[cfg(test)]
mod samples;
#[cfg(test)]
mod stores;
#[cfg(test)]
mod streams;
#[cfg(test)]
mod tables;
#[cfg(test)]
mod trees;
#[cfg(test)]
mod workers;
