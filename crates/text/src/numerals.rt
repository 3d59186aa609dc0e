// A number read at a place of a lent buffer.
ghost use Rattle.text.specs.Readers.{number as «number_of»};
ghost use Rattle.text.specs.Answers.{NumeralIs};

// The number that starts at `at`, and the place after it.
pub fn number(s: &[u8], at: usize) -> Option<(u32, usize)>
    ensures { NumeralIs «number_of» s.now at 1 result }
{
    let first = *s.get(at)?;
    if first == b'0' {
        return Some((0, at + 1));
    }
    if !first.is_ascii_digit() {
        return None;
    }
    let mut v = u32::from(first - b'0');
    for i in at + 1..s.len() {
        let b = s[i];
        if !b.is_ascii_digit() {
            return Some((v, i));
        }
        v = v.checked_mul(10)?.checked_add(u32::from(b - b'0'))?;
    }
    Some((v, s.len()))
}
