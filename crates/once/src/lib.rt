// The entries of the once-only cells, and their types. What they do is defined in the crate once_spec;
// each promises one equation, whether it is refused or not.
#![tactic(auto)]

mod offers;
mod opening;
mod questions;
mod steps;
mod turn;

pub use crate::offers::begin_offer;
pub use crate::opening::open;
pub use crate::steps::step;
pub use cells_spec::Refusal;
pub use once_spec::{Agreement, Offer, OnceCell, OnceState};
