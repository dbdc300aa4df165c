//! Stops: commits, openings and lives of stores in memory, of which each is stopped or fails at a chosen call.
mod commits;
mod lives;
mod plugged;
mod recorder;
mod versions;
