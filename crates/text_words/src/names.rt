// What a name, a term and a number are.
ghost use Rattle.std.specs.Prelude.{◌≡◌, ◌+◌, length, drop};
ghost use Rattle.definition.specs.Lists.{all};
ghost use Rattle.text_words.specs.Bytes.{up_to, same as same_bytes};
ghost use Rattle.text_words.specs.Names.{is_name_byte, is_absent, is_name, is_variable, is_literal, is_term, if_below};

use crate::parts;

// A number has at most so many digits.
const MOST_DIGITS: usize = 4;

// Two names are equal.
// Stays: no `==`, which takes more than twice as long for names of two or three bytes.
pub fn same(a: &[u8], b: &[u8]) -> bool
    ensures { result ≡ same_bytes a.now b.now }
{
    a.len() == b.len() && a.iter().zip(b.iter()).all(|(x, y)| x == y)
}

// The scanner: where the next byte b stands, from a place on; the text's end, or that place if it lies behind, where none is.
pub fn find_byte(s: &[u8], from: usize, b: u8) -> usize
    ensures { result ≡ from + length (up_to b (drop from s.now)) }
{
    let rest = parts::between(s, from, s.len());
    from + rest.iter().position(|x| *x == b).unwrap_or(rest.len())
}

// A letter, a digit, `_` or `-`.
// Stays: tests in the order of the bytes, the smallest letters first. Tried: `is_ascii_alphanumeric`, and a `match` of
// ranges, which take nearly twice the instructions for each byte of a name.
#[tactic(auto, unfolding(crate::specs::Names::is_name_byte))]
fn is_name_byte(b: u8) -> bool
    ensures { result ≡ is_name_byte b }
{
    if b'a' <= b {
        return b <= b'z';
    }
    if b == b'_' {
        return true;
    }
    if b'A' <= b {
        return b <= b'Z';
    }
    if b'0' <= b {
        return b <= b'9';
    }
    b == b'-'
}

fn all_name_bytes(w: &[u8]) -> bool
    ensures { result ≡ all is_name_byte w.now }
{
    w.iter().all(|b| is_name_byte(*b))
}

// A field that is absent.
#[tactic(auto, unfolding(crate::specs::Names::is_absent))]
pub fn is_absent(w: &[u8]) -> bool
    ensures { result ≡ is_absent w.now }
{
    same(w, b"-")
}

#[tactic(auto, unfolding(crate::specs::Names::is_name))]
pub fn is_name(w: &[u8]) -> bool
    ensures { result ≡ is_name w.now }
{
    !w.is_empty() && !is_absent(w) && all_name_bytes(w)
}

#[tactic(auto, unfolding(crate::specs::Names::is_variable))]
pub fn is_variable(w: &[u8]) -> bool
    ensures { result ≡ is_variable w.now }
{
    is_name(w)
}

// Behind `=`: a sort's name, `:`, a name.
#[tactic(auto, using(crate::specs::Laws::Names::sort_part_lem, crate::specs::Laws::Names::name_part_lem, crate::specs::Laws::Names::up_to_most), unfolding(crate::specs::Names::is_literal))]
fn is_literal(w: &[u8]) -> bool
    ensures { result ≡ is_literal w.now }
{
    let n = find_byte(w, 0, b':');
    is_name(parts::between(w, 0, n)) && is_name(parts::between(w, n + 1, w.len()))
}

// A variable, `@` and a name, or `=` and a literal.
#[tactic(auto, using(crate::specs::Laws::Names::to_end), unfolding(crate::specs::Names::is_term))]
pub fn is_term(w: &[u8]) -> bool
    ensures { result ≡ is_term w.now }
{
    match w {
        [] => false,
        [b'@', rest @ ..] => is_name(rest),
        [b'=', rest @ ..] => is_literal(rest),
        _ => is_variable(w),
    }
}

// The number that the word spells, if that is below the bound.
pub fn number_below(w: &[u8], bound: usize) -> Option<usize>
    ensures { result ≡ if_below bound w.now }
{
    if w.is_empty() || MOST_DIGITS < w.len() {
        return None;
    }
    let mut value = 0;
    for b in w {
        if !b.is_ascii_digit() {
            return None;
        }
        value = value * 10 + usize::from(*b - b'0');
    }
    (value < bound).then_some(value)
}
