// The words of the marks so far, in the marks' order.
ghost use Rattle.std.specs.Prelude.{◌≡◌, List, [], ◌∷◌, ◌++◌, ℕ, ◌≤◌, ◌<◌, length, take, drop};
ghost use Rattle.moments_tool.specs.Words.{insert_word, entered, IsMade, SortedWords};

use std::marker::Model;

// A word for each action, and one for each task.
const MARKS: usize = 65567;

#[derive(Drop)]
pub struct Marks {
    words: [u32; MARKS],
    len: usize,
}

impl Model for Marks {
    ghost Value = { List ℕ };

    ghost view = { λ m. take m.len m.words };

    ghost invariant = { λ m. (m.len ≤ 65567) × SortedWords (take m.len m.words) };
}

impl Marks {
    pub fn new() -> Marks
        ensures { result ≡ [] }
    {
        Marks {
            words: [0; MARKS],
            len: 0,
        }
    }

    pub fn words(&self) -> &[u32]
        ensures value { result.now ≡ self.now }
        ensures upper_bound { length result.now ≤ 65567 }
    {
        &self.words[..self.len]
    }

    // With the word that was made, if one was.
    pub fn enter(&mut self, made: Option<u32>)
        requires { length self.old < 65567 }
        ensures after { self.new ≡ entered made self.old }
        ensures made { IsMade made }
    {
        if let Some(w) = made {
            self.insert(w);
        }
    }

    fn insert(&mut self, w: u32)
        requires { length self.old < 65567 }
        ensures { self.new ≡ insert_word w self.old }
    {
        let n = self.len;
        let at = place(&self.words[..n], w);
        self.words[n] = w;
        self.words[at..=n].rotate_right(1);
        self.len = n + 1;
    }
}

// Where the word goes among these: behind those that come before it. From the end, as a call's moment is seldom far back.
fn place(words: &[u32], w: u32) -> usize
    requires { SortedWords words.now }
    ensures upper_bound { result ≤ length words.now }
    ensures at_place { take result words.now ++ w ∷ drop result words.now ≡ insert_word w words.now }
{
    let rank = w / 256;
    words
        .iter()
        .rposition(|y| *y / 256 < rank)
        .map_or(0, |i| i + 1)
}
