//! Tests of loads, sweeps and migrations, and of the desk that is found after a crash or a failure.
//!
//! # Notes
//!
//! Served commands, loads, sweeps, openings and migrations meet a device that stops or fails at one
//! of its calls, and so do a journal's commits and lives of a store (`stops`).
#![tactic(auto)]

/// Asserts a fact on which no later step rests. It is a call where `assert!` is a branch, which is dearer to prove. So is `&&`: `&` joins
/// facts here.
#[cfg(test)]
macro_rules! holds {
    ($rt:expr; $fact:expr) => {
        $crate::facts::holds($rt, $fact, stringify!($fact))
    };
}

#[cfg(test)]
mod devices;
#[cfg(test)]
mod facts;
#[cfg(test)]
mod forks;
#[cfg(test)]
mod loads;
#[cfg(test)]
mod migrations;
#[cfg(test)]
mod openings;
#[cfg(test)]
mod stopped_loads;
#[cfg(test)]
mod stops;
#[cfg(test)]
mod stores;
#[cfg(test)]
mod streams;
#[cfg(test)]
mod texts;
