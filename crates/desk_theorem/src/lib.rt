//! The claim: one life of a store on its device, any number of lives, and a world of events.
//!
//! # Model
//!
//! Relations between the store that a device holds when it is opened and the store to which each
//! crash state of the device opens at the end of a life (`OnDevice`). Each kind of life has its
//! own: requests, a stream, an office, a refused opening, a look, a migration (`LifeHolds`). Each
//! of them has the five clauses of the claim (`Clauses`). The crates above promise these relations.
//!
//! A world is a list of changes, the numbers of those acknowledged and shown, and a number for each
//! visitor. Its events: a change is written, acknowledged, shown; a visitor looks or learns a
//! number; a crash keeps at least the acknowledged changes.
//!
//! # Proved
//!
//! - `lives_are_one`: lives that each begin on a crash state of the life before are lives of the
//!   first store (`PlanDesk`).
//! - `devices_live`: a life on a synced device is a life on what that device reads.
//! - `World::step` moves the world by an event (`move`) and returns a visit's reply; if memory is
//!   refused, nothing moves. `core_law`: after every list of events nothing that was shown is lost.
//! - `lists_are_run`, `office_is_run`, `stands`, `are_standing`: some list of events leads to what
//!   the office shows and the visitors have seen, and each visitor is answered as in that world.
//!   `calls_are_events`: what each call moves.
//!
//! # Not proved
//!
//! That a device reads, when it is opened again, what a crash left. A crash within a life counts
//! as one at its end: `SurvivesEachRun` has every moment. The order of events between connections.
//!
//! # Notes
//!
//! A contract has types of level 0, and the model of a device is of level 1. So the law on lives
//! speaks of images, and of no device.
//!
//! This is the room of the crates desk_theorem_runs, desk_theorem_loading and desk_theorem_lives,
//! whose calls the program reaches through it.
#![tactic(auto)]

pub mod event;
pub mod gallery_law;
pub mod law;
pub mod office;
pub mod world;

pub use desk_theorem_lives::{
    Clerk, Migration, load_geography, one_desk_opens, open_store, runs_survive, start, swept_law,
};
