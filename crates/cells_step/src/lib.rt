// One line of figure 2 on the lent pool, and what follows it.
#![tactic(auto)]

pub mod blocks;
mod deciding;
mod filling;
mod follows;
pub mod free_block;
mod installing;
mod memory;
pub mod paths;
mod reading;
mod runs;
mod swapping;
pub mod turns;

pub use crate::memory::{fill, load};
