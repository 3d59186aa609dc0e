// The actions that the reader kept.
ghost use Rattle.std.specs.Prelude.{◌≡◌, ◌+◌, ◌*◌, ◌≤◌, ◌<◌, length, get_or};
ghost use Rattle.session_reader.specs.Kept.{FormNumbers};
ghost use Rattle.session_reader.specs.Reading.{act_at};
ghost use Rattle.history_spec.specs.History.{task_of};
ghost use Rattle.cells_spec.specs.Answers.{act_of};

use cells_spec::Action;

// A session's actions: each of `kept` is the number of a form.
#[derive(Clone, Copy)]
pub struct Actions<'a> {
    pub forms: &'a [u32],
    pub kept: &'a [u32],
    pub ghost few: { length kept.now ≤ 65535 },
    pub ghost numbered: { FormNumbers (length forms.now) kept.now },
}

impl<'a> Actions<'a> {
    pub fn len(&self) -> usize
        ensures { result ≡ length self.now.kept.now }
    {
        self.kept.len()
    }

    pub fn at(&self, i: usize) -> Action
        requires { i < length self.now.kept.now }
        ensures { act_of result ≡ act_at self.now.forms.now (get_or self.now.kept.now i 0) }
    {
        action_at(self.forms, self.kept[i])
    }
}

// Form f of the reader's table.
// Stays (1): a form's kind is a word of the reader's buffer, as `read_session` promises it (`after_reading`).
// Stays (7): a form's kind is a word of the reader's buffer, as `after_reading` has it.
fn action_at(forms: &[u32], f: u32) -> Action
    requires { 5 * f + 5 ≤ length forms.now }
    ensures { act_of result ≡ act_at forms.now f }
{
    let at = 5 * f as usize;
    let kind = forms[at];
    let task = forms[at + 1];
    match kind {
        1 => Action::Read(task, forms[at + 2]),
        2 => Action::Swap(task, forms[at + 2], forms[at + 3], forms[at + 4]),
        3 => Action::Step(task),
        _ => Action::Drop(task),
    }
}

pub fn task_of(a: Action) -> u32
    ensures { result ≡ task_of (act_of a) }
{
    match a {
        Action::Read(t, _) | Action::Swap(t, ..) | Action::Step(t) | Action::Drop(t) => t,
    }
}
