// Shared compare-and-swap cells after figure 2 of Luchangco, Moir and Shavit: the types of their state, of the
// actions and of a refusal. What the questions ask and what the entries do is defined in specs/; each entry promises one equation,
// whether it is refused or not. The crate `cells` has them.
#![tactic(auto)]

pub mod refusal;

pub use crate::refusal::Refusal;
use figure_lines::Record;

#[derive(Clone, Copy, Debug, PartialEq, Eq)]
pub struct State {
    pub tasks: u32,
    pub cells: u32,
    pub blocks: u32,
    // The block taken last.
    pub last: u32,
    // Each cell's current block.
    pub current: [u32; 16],
    pub records: [Record; 32],
    // How many times each block is used: by the cells that name it, the tasks that hold it and those that have taken it.
    pub counts: [u8; 128],
}

// What a list of actions is made of: a task begins a read or a swap, takes a step, or is dropped.
#[derive(Clone, Copy)]
pub enum Action {
    Read(u32, u32),
    Swap(u32, u32, u32, u32),
    Step(u32),
    Drop(u32),
}
