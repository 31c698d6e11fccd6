// The pieces of a row: names, and what an error entry says.
ghost use Rattle.std.specs.Prelude.{◌≡◌, ◌+◌, ◌*◌, ◌≤◌, [], length, get_or};
ghost use Rattle.text_words.specs.Parts.{all_of};
ghost use Rattle.definition.specs.Sizes.{entry_cells};
ghost use Rattle.text_definition.specs.Rows.{sorted, told, entry_row, sort_text};
ghost use Rattle.out_rows.specs.Shown.{decls, exit};
ghost use Rattle.out_rows.specs.Entries.{entry_text};

use crate::Shown;
use rule_cells::cell;
use text_words::parts::{PART_CELLS, Parts};

// Stays: a constant of its own. Those of type_errors and solve_leaves are of crates that this one doesn't stand on.
const ENTRY_CELLS: usize = 8;

// What an error entry says.
#[derive(Clone, Copy)]
pub enum Entry {
    Mismatch {
        place: usize,
        term: usize,
        expected: usize,
        actual: usize,
    },
    AllFailed {
        count: usize,
    },
    Arity {
        place: usize,
        head: usize,
        count: usize,
    },
}

// Cell k of error entry i, 0 past the list's end.
pub fn entry_cell(errors: &[usize], i: usize, k: usize) -> usize
    ensures { result ≡ get_or errors.now (i * entry_cells + k) 0 }
{
    cell(errors, i.saturating_mul(ENTRY_CELLS).saturating_add(k))
}

// Name i of a table, nothing past its end.
pub fn name<'a>(names: Parts<'a>, i: usize) -> &'a [u8]
    ensures value { result.now ≡ get_or (all_of names.entry) i [] }
    ensures at_most { length result.now ≤ length names.entry.text.now }
{
    if names.count <= i || names.table.len() / PART_CELLS <= i {
        return &names.text[..0];
    }
    names.at(i)
}

// How many cells hold a sort.
pub fn count_sorted(sort_list: &[usize]) -> usize
    ensures { result ≡ sorted sort_list.now }
{
    sort_list.iter().filter(|cell| **cell != 0).count()
}

impl<'a> Shown<'a> {
    // A table of so many names.
    fn names(self, table: &'a [usize], count: usize) -> Parts<'a>
        ensures text { result.text.now ≡ self.entry.text.now }
        ensures table { result.table.now ≡ table.now }
        ensures count { result.count ≡ count }
    {
        Parts {
            text: self.text,
            table,
            count,
        }
    }

    pub(crate) fn sort(self, i: usize) -> &'a [u8]
        ensures value { result.now ≡ sort_text (decls self.entry) i }
        ensures at_most { length result.now ≤ length self.entry.text.now }
    {
        name(self.names(self.sort_names, self.ended.numbers.sorts), i)
    }

    pub(crate) fn head(self, i: usize) -> &'a [u8]
        ensures value { result.now ≡ get_or (decls self.entry).head_names i [] }
        ensures at_most { length result.now ≤ length self.entry.text.now }
    {
        name(self.names(self.head_names, self.ended.numbers.heads), i)
    }

    // Nothing for a fresh term.
    pub(crate) fn term(self, t: usize) -> &'a [u8]
        ensures value { result.now ≡ get_or (decls self.entry).term_names t [] }
        ensures at_most { length result.now ≤ length self.entry.text.now }
    {
        name(self.names(self.term_names, self.ended.numbers.terms), t)
    }

    // Error entry i by its number.
    pub(crate) fn entry(self, i: usize) -> Option<Entry>
        ensures { entry_text (decls self.entry) result ≡ entry_row (told (get_or self.entry.errors.now (i * entry_cells) 0)) (decls self.entry) (exit self.entry) i }
    {
        let place = entry_cell(self.errors, i, 2);
        let first = entry_cell(self.errors, i, 3);
        let second = entry_cell(self.errors, i, 4);
        match entry_cell(self.errors, i, 0) {
            30 => Some(Entry::Mismatch {
                place,
                term: first,
                expected: second,
                actual: entry_cell(self.errors, i, 5),
            }),
            32 => Some(Entry::AllFailed { count: first }),
            33 => Some(Entry::Arity {
                place,
                head: first,
                count: second.saturating_sub(1),
            }),
            _ => None,
        }
    }
}
