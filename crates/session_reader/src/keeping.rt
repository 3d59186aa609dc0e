// The table of forms and the list of actions: one form kept, and the actions of forms repeated.
ghost use Rattle.std.specs.Prelude.{◌≡◌, List, ℕ, ◌∷◌, [], ◌+◌, ◌-◌, ◌*◌, ◌≤◌, ◌<◌, length, take, drop};
ghost use Rattle.text.specs.Append.{Appended};
ghost use Rattle.session_spec.specs.Session.{times};
ghost use Rattle.session_reader.specs.Answers.{kept, Stands, KeptIs, SameBuffers};

// The buffers, and how many forms and actions are kept in them.
#[derive(Drop)]
pub struct Tables<'a> {
    pub forms: &'a mut [u32],
    pub actions: &'a mut [u32],
    pub f: usize,
    pub n: usize,
}

// Copies the words from n to m behind them, so that they stand there c times.
fn repeat(words: &mut [u32], n: usize, m: usize, c: usize) -> usize
    requires n_le_m { (n ≤ m) × (m ≤ length words.old) }
    requires c_nonzero { (0 < c) × (n + c * (m - n) ≤ length words.old) }
    ensures { Appended words.old words.new n result (times c (take (m - n) (drop n words.old))) }
{
    let k = m - n;
    let end = n + c * k;
    for to in m..end {
        words[to] = words[to - k];
    }
    end
}

impl Tables<'_> {
    // Keeps a form of five words, and one action of it, if there is room for the action. Returns whether there is none.
    pub fn keep(&mut self, kind: u32, numbers: &[u32; 4]) -> bool
        requires f_in_bounds { 5 * self.old.f + 5 ≤ length self.old.forms.now }
        requires f_bound { self.old.f < 65536 }
        requires n_in_bounds { self.old.n ≤ length self.old.actions.now }
        ensures same { SameBuffers self.old self.new }
        ensures kept { KeptIs self.old self.new self.old.f self.old.n (self.old.f + 1) (kind ∷ numbers.now) (self.old.f ∷ []) result }
    {
        if self.actions.len() <= self.n {
            return true;
        }
        let at = 5 * self.f;
        self.forms[at] = kind;
        self.forms[at + 1..at + 5].copy_from_slice(numbers);
        self.actions[self.n] = self.f as u32;
        self.f += 1;
        self.n += 1;
        false
    }

    // Repeats what was kept since f forms and n actions, so that it stands there c times. `over` says whether there were
    // more actions than fit; so does the result.
    pub fn again(&mut self, f: usize, n: usize, c: u32, over: bool) -> bool
        requires c_nonzero { (0 < c) × (f ≤ self.old.f) }
        requires n_le_m { (n ≤ self.old.n) × (self.old.n ≤ length self.old.actions.now) }
        requires actions_len_bound { length self.old.actions.now ≤ 65535 }
        ensures same { SameBuffers self.old self.new }
        ensures kept { (F A t w : List ℕ) → length A ≡ length self.old.actions.now → Stands F self.old.forms.now A self.old.actions.now f n (kept over self.old.f self.old.n) t w → Stands F self.new.forms.now A self.new.actions.now f n (kept result self.new.f self.new.n) t (times c w) × (self.new.f ≤ self.old.f) }
    {
        if over {
            return true;
        }
        let count = c as usize;
        if self.actions.len() < n + count * (self.n - n) {
            self.f = f;
            self.n = n;
            return true;
        }
        self.n = repeat(self.actions, n, self.n, count);
        false
    }
}
