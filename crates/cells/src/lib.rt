// The entries that firmware links, and every type that their users name.
#![tactic(auto)]

mod add_parts;
pub mod adding;
mod adds_fitness;
mod begins;
mod drops;
pub mod fit;
pub mod lent;
mod looks;
mod opening;
pub mod opening_state;
pub mod recounting;
mod steps;

pub use crate::begins::{begin_read, begin_swap};
pub use crate::drops::drop;
pub use crate::lent::step_lent;
pub use crate::looks::look;
pub use crate::opening::open;
pub use crate::opening_state::blank;
pub use crate::steps::step;
pub use adds_spec::{Add, AddEnd, AddVerdict, AddingEnd, AddingState};
pub use cells_spec::{Refusal, State};
pub use figure_lines::{Answer, Finished, Record};
