// Parts of a text, and tables of them: two cells a part, its start and its end.
ghost use Rattle.std.specs.Prelude.{◌≡◌, ◌+◌, ◌*◌, ◌≤◌, ◌<◌, [], ◌∷◌, length};
ghost use Rattle.std.proofs.lemmas.List.Edits.{sets};
ghost use Rattle.text_words.specs.Bytes.{space};
ghost use Rattle.text_words.specs.Parts.{split, cuts, between as part_between, part_at, part_cells, find as first_part, Whole, all_of};

use crate::names;

// A part takes two cells of a table.
pub const PART_CELLS: usize = 2;

// A part of a text; what lies outside the text is left out.
// Stays: three tests. Tried: `get(start..end.min(..))`, by which names of two bytes took more than twice as long to find.
pub fn between(s: &[u8], start: usize, end: usize) -> &[u8]
    ensures { result.now ≡ part_between s.now start end }
{
    if s.len() < end {
        if s.len() < start {
            return &s[..0];
        }
        return &s[start..];
    }
    if end < start {
        return &s[..0];
    }
    &s[start..end]
}

// Parts of a text: two cells of the table for each, and how many there are.
#[derive(Clone, Copy)]
pub struct Parts<'a> {
    pub text: &'a [u8],
    pub table: &'a [usize],
    pub count: usize,
}

impl<'a> Parts<'a> {
    // Part i.
    pub fn at(self, i: usize) -> &'a [u8]
        requires { i * part_cells + 1 < length self.table.now }
        ensures { result.now ≡ part_at self.entry.text.now self.entry.table.now i }
    {
        between(
            self.text,
            self.table[i * PART_CELLS],
            self.table[i * PART_CELLS + 1],
        )
    }

    // The number of the first part that is the word, the next free number where none is.
    // Stays: no Option. The definitions number a word that is not there so, and all callers but one take the number as it is.
    pub fn find(self, w: &[u8]) -> usize
        requires { Whole self }
        ensures { result ≡ first_part w.now (all_of self.entry) }
    {
        (0..self.count)
            .position(|i| names::same(self.at(i), w))
            .unwrap_or(self.count)
    }
}

// Writes part n of a table.
pub fn put_part(table: &mut [usize], n: usize, start: usize, end: usize)
    requires { n * part_cells + 1 < length table.old }
    ensures { table.new ≡ sets table.old (n * part_cells) (start ∷ end ∷ []) }
{
    table[n * PART_CELLS] = start;
    table[n * PART_CELLS + 1] = end;
}

// Cuts a line that begins at `base` into words: their starts and ends go to the front of the table. Answers how many.
pub fn split_words(line: &[u8], base: usize, table: &mut [usize]) -> usize
    requires part_cells_in_bounds { length line.now * part_cells + part_cells ≤ length table.old }
    requires line_bound { base + length line.now ≤ 32768 }
    ensures value { result ≡ length (split space line.now) }
    ensures table_after { table.new ≡ sets table.old 0 (cuts space base line.now) }
{
    let mut n = 0;
    let mut start = base;
    for (i, b) in line.iter().enumerate() {
        if *b == b' ' {
            let at = base + i;
            put_part(table, n, start, at);
            n += 1;
            start = at + 1;
        }
    }
    put_part(table, n, start, base + line.len());
    n + 1
}
