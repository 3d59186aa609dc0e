// The questions, asked in their order.
#![tactic(auto)]

mod counting;
pub mod fitness;
pub mod open_refusals;
pub mod refusals;
mod sizes;

pub use crate::counting::{claim, count, is_holding, is_taking};
pub use crate::sizes::{blocks_ok, cells_ok, tasks_ok};
