// A word read at a place of a lent buffer.
ghost use Rattle.std.specs.Prelude.{◌≤◌, length};
ghost use Rattle.text.specs.Readers.{literal};
ghost use Rattle.text.specs.Answers.{PlaceIs};

// The place after a word, if it stands at `at`.
pub fn starts_with(s: &[u8], at: usize, word: &[u8]) -> Option<usize>
    requires { at ≤ length s.now }
    ensures { PlaceIs (literal word.now) s.now at (length word.now) result }
{
    let rest = s[at..].strip_prefix(word)?;
    Some(s.len() - rest.len())
}
