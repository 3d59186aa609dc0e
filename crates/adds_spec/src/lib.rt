// Lists of actions that hold adds too: what an add is, over any machine that has begins, steps and drops of reads and swaps.
// Adds on the cells: the state with each task's add, and what the entries answer. What they do is defined in specs/.
#![tactic(auto)]

ghost use Rattle.std.specs.Prelude.{◌≡◌};
ghost use Rattle.adds_spec.specs.Adding.{no_add, has_add};
ghost use Rattle.adds_spec.specs.Requests.{fresh_add};

use cells_spec::State;
use figure_lines::Finished;

// An add under way: its amount and tries as begun; its swaps that answered no; the counts of its reads and swaps that ended.
// No add: tries 0; an opening, a begin, a drop and a finished add leave every other field 0 too.
// Stays (1): users hand in the state, and question 6 asks tries 0 for no add: `has_add` in specs/Adding.antt. An Option excludes states.
#[derive(Clone, Copy, Debug, PartialEq, Eq)]
pub struct Add {
    pub amount: u32,
    pub tries: u32,
    pub failed: u32,
    pub steps: u32,
    pub won: u32,
    pub lost: u32,
}

impl Add {
    pub fn none() -> Add
        ensures { result ≡ no_add }
    {
        Add::begun(0, 0)
    }

    // Of which no read or swap has ended.
    pub fn begun(amount: u32, tries: u32) -> Add
        ensures { result ≡ fresh_add amount tries }
    {
        Add {
            amount,
            tries,
            failed: 0,
            steps: 0,
            won: 0,
            lost: 0,
        }
    }

    pub fn is_under_way(&self) -> bool
        ensures { result ≡ has_add self.now }
    {
        self.tries != 0
    }
}

// The cells' state, and beside its records each task's add.
#[derive(Clone, Copy, Debug, PartialEq, Eq)]
pub struct AddingState {
    pub cells: State,
    pub adds: [Add; 32],
}

#[derive(Clone, Copy, Debug, PartialEq, Eq)]
pub enum AddVerdict {
    Added,
    Over,
    Spent,
}

// A finished add, with its counts over all its reads and swaps.
#[derive(Clone, Copy, Debug, PartialEq, Eq)]
pub struct AddEnd {
    pub cell: u32,
    pub verdict: AddVerdict,
    pub steps: u32,
    pub won: u32,
    pub lost: u32,
}

// What follows an add's read or swap: another read; a swap, with its values; or the add's answer.
#[derive(Clone, Copy, Debug, PartialEq, Eq)]
pub enum AddAhead {
    NextRead(Add),
    NextSwap(u32, u32, Add),
    LastPart(AddVerdict),
}

// What a step finished: a read or swap of the task's own, or its add.
#[derive(Clone, Copy, Debug, PartialEq, Eq)]
pub enum AddingEnd {
    Call(Finished),
    Add(AddEnd),
}
