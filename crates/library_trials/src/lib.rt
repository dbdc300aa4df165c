//! Tests of the libraries below the clerk: keys, rows and pages, plans, districts.
//!
//! # Notes
//!
//! Devices stop and fail at each of their calls. Rows are put, got and removed in a tree of pages
//! and in an ordered map. Keys of rows are written and read by the table of the store's format.
//! Plans and districts exceed the sizes at which their parts fill. surface_trials calls each public
//! call of these libraries.
#![tactic(auto)]

/// Asserts a fact on which no later step rests. It is a call where `assert!` is a branch, which is dearer to prove.
#[cfg(test)]
macro_rules! holds {
    ($rt:expr; $fact:expr) => {
        $crate::facts::holds($rt, $fact, stringify!($fact))
    };
}

#[cfg(test)]
mod facts;
#[cfg(test)]
mod key_trials;
#[cfg(test)]
mod long_trials;
#[cfg(test)]
mod name_trials;
#[cfg(test)]
mod owner_trials;
#[cfg(test)]
mod piece_trials;
#[cfg(test)]
mod read_trials;
#[cfg(test)]
mod recorder;
#[cfg(test)]
mod row_trials;
#[cfg(test)]
mod scan_trials;
#[cfg(test)]
mod stop_trials;
