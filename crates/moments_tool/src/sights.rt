// What moments notes of the calls.
ghost use Rattle.std.specs.Prelude.{◌≡◌};
ghost use Rattle.moments_tool.specs.Notes.{step_noted, held_noted};
ghost use Rattle.moments_tool.specs.Loop.{deed_meant, deed_is_step};

use figure_lines::Answer;

// What a task sees of the block that it holds, before its step.
#[derive(Clone, Copy)]
pub struct Sight {
    pub active: bool,
    pub undecided: bool,
    pub current: bool,
    pub as_expected: bool,
    pub as_new: bool,
}

// A task's own notes: the numbers of actions, and whether its store found the block active.
// Stays (1): each note is there from the start, 0 before its first step, as `own_notes` says; none is missing.
#[derive(Clone, Copy)]
pub struct Own {
    pub loaded: u16,
    pub stored: u16,
    pub active: bool,
    pub inactive: u16,
    pub decided: u16,
    pub replaced: u16,
}

impl Own {
    // With what its own step at that line notes.
    pub fn stepped(self, line: u32, x: Sight, i: u16) -> Own
        ensures { result ≡ step_noted line x i self }
    {
        match line {
            10 | 15 => Own { decided: i, ..self },
            11 | 20 => Own { loaded: i, ..self },
            23 => Own {
                stored: i,
                active: x.active,
                ..self
            },
            _ => self,
        }
    }

    // With what a step at that line notes for everybody who holds the block.
    pub fn held(self, line: u32, x: Sight, i: u16) -> Own
        ensures { result ≡ held_noted line x i self }
    {
        if (line == 2) & x.undecided {
            return Own { decided: i, ..self };
        }
        if (line == 27) & x.active {
            return Own {
                inactive: i,
                ..self
            };
        }
        if (line == 30) & x.current {
            return Own {
                replaced: i,
                ..self
            };
        }
        self
    }
}

// The withdrawn swap that waits for the decision of a cell's block: the word of its mark, and its new value.
#[derive(Clone, Copy)]
pub struct Waiter {
    pub mark: u32,
    pub new: u32,
}

// What an action did to its task's call.
// Stays (1): four deeds, after each of which something else follows; none is a value that may be missing.
#[derive(Clone, Copy)]
pub enum Deed {
    Nothing,
    Moved,
    Answered(Answer),
    Dropped,
}

impl Deed {
    // The action was a step that is done.
    pub fn is_step(self) -> bool
        ensures { result ≡ deed_is_step (deed_meant self) }
    {
        matches!(self, Deed::Moved | Deed::Answered(_))
    }
}
