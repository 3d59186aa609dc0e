// The word that an action makes, and who waits after it. An action makes at most one: of the call that it ends, or of a withdrawn swap
// that is then known to have taken effect.
ghost use Rattle.std.specs.Prelude.{◌≡◌, ◌<◌, Some};
ghost use Rattle.figure_lines.specs.Answers.{answer_of};
ghost use Rattle.figure_lines.specs.Record.{op_of};
ghost use Rattle.figure_moments.specs.Moments.{spot_at};
ghost use Rattle.history_spec.specs.History.{Yes};
ghost use Rattle.moments_tool.specs.Words.{mark_word};
ghost use Rattle.moments_tool.specs.Notes.{rule_meant};
ghost use Rattle.moments_tool.specs.Loop.{deed_meant, ending_spot, standing_spot, stand_word, landed_word, made_word, dropped_waiter, next_waiter};

use crate::notes::decides;
use crate::sights::{Deed, Own, Sight, Waiter};
use crate::spots::{Rule, ending, has_stored, itself};
use crate::words::word_of;
use figure_lines::{Answer, Record};

// A task's call: its task, its record, what it sees of its block, and its notes.
#[derive(Clone, Copy)]
pub struct Caller {
    pub task: u32,
    pub call: Record,
    pub sight: Sight,
    pub own: Own,
    ghost fits_word: { (task < 32) × (call.cell < 16) },
}

impl Caller {
    // The word of its call, which ends with that answer.
    fn ended(self, a: Answer, i: u16) -> u32
        ensures { result ≡ mark_word (ending_spot i self.own self.call self.sight (answer_of a)) (op_of self.call) self.task (answer_of a) }
    {
        let q = ending(self.call, self.sight, a, i, self.own);
        word_of(q, self.call, a, self.task)
    }

    // The word of its swap, which took effect at that action by that rule.
    fn landed_at(self, moment: u16, rule: Rule) -> u32
        ensures { result ≡ mark_word (spot_at moment (rule_meant rule)) (op_of self.call) self.task Yes }
    {
        word_of(itself(moment, rule), self.call, Answer::Yes, self.task)
    }

    // The word of its pending swap, if it took effect.
    pub fn standing(self) -> Option<u32>
        ensures { result ≡ stand_word (standing_spot self.own self.call self.sight) (op_of self.call) self.task }
    {
        if !has_stored(self.call) {
            return None;
        }
        if self.own.active {
            return Some(self.landed_at(self.own.stored, Rule::C4));
        }
        if self.sight.as_new {
            return Some(self.landed_at(self.own.inactive, Rule::C3));
        }
        None
    }

    // Its step decides the block as its new value: the word of who waits for that.
    fn landed(self, waiting: Option<Waiter>) -> Option<u32>
        ensures { result ≡ landed_word self.call self.sight waiting }
    {
        let w = waiting?;
        if decides(self.call.line, self.sight) & (self.call.loaded == w.new) {
            Some(w.mark)
        } else {
            None
        }
    }

    // The word that the action makes.
    pub fn made(self, d: Deed, waiting: Option<Waiter>, i: u16) -> Option<u32>
        ensures { result ≡ made_word (deed_meant d) i self.task self.call self.sight self.own waiting }
    {
        match d {
            Deed::Nothing => None,
            Deed::Moved => self.landed(waiting),
            Deed::Answered(a) => Some(self.ended(a, i)),
            Deed::Dropped => self.standing(),
        }
    }

    // A withdrawn swap that stored late, in a block that is not decided, waits.
    fn dropped_waiter(self, waiting: Option<Waiter>) -> Option<Waiter>
        ensures { result ≡ dropped_waiter self.task self.call self.sight self.own waiting }
    {
        if has_stored(self.call) & (!self.own.active & self.sight.undecided) {
            let mark = self.landed_at(self.own.inactive, Rule::C3);
            let new = self.call.new;
            return Some(Waiter { mark, new });
        }
        waiting
    }

    // Who waits in its cell after the action. After a decision nobody waits.
    pub fn next_waiter(self, d: Deed, waiting: Option<Waiter>) -> Option<Waiter>
        ensures { result ≡ next_waiter (deed_meant d) self.task self.call self.sight self.own waiting }
    {
        match d {
            Deed::Nothing => waiting,
            Deed::Moved | Deed::Answered(_) => {
                if decides(self.call.line, self.sight) {
                    None
                } else {
                    waiting
                }
            }
            Deed::Dropped => self.dropped_waiter(waiting),
        }
    }
}
