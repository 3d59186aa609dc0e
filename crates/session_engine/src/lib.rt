// A session opened, one action done, and the run that every tool shares.
#![tactic(auto)]

pub mod actions;
pub mod advance;
pub mod start;
pub mod tool;
