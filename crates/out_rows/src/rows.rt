// The kinds of rows.
ghost use Rattle.std.specs.Prelude.{◌*◌, get_or};
ghost use Rattle.definition.specs.Sizes.{entry_cells};
ghost use Rattle.text_definition.specs.Rows.{told, entry_row, ok_row, open_row, conflict_row};
ghost use Rattle.out_rows.specs.Row.{Wrote};
ghost use Rattle.out_rows.specs.Shown.{decls, exit, HasRoom};
ghost use Rattle.out_rows.specs.Entries.{sorted_row, unsorted_row, mismatch_row, arity_row};

use crate::Shown;
use crate::pieces::{Entry, count_sorted};
use crate::row::Row;
use rule_cells::cell;

// Stays: each function asks for the room. What is put uses it up, so it is no invariant of a row.
impl Shown<'_> {
    // `TERM SORT`
    fn put_sorted(self, t: usize, sort: usize, row: &mut Row)
        requires { HasRoom self row.old }
        ensures { Wrote row.old (sorted_row (decls self.entry) t sort) row.new }
    {
        row.put_term(self.term(t), t);
        row.put_next(self.sort(sort));
        row.put(b"\n");
    }

    // `unsorted LINE TERM`
    fn put_unsorted(self, place: usize, t: usize, row: &mut Row)
        requires { HasRoom self row.old }
        ensures { Wrote row.old (unsorted_row (decls self.entry) place t) row.new }
    {
        row.begin(b"unsorted ", place);
        row.put(b" ");
        row.put_term(self.term(t), t);
        row.put(b"\n");
    }

    // `mismatch LINE TERM EXPECTED ACTUAL`
    fn put_mismatch(self, place: usize, t: usize, expected: usize, actual: usize, row: &mut Row)
        requires { HasRoom self row.old }
        ensures { Wrote row.old (mismatch_row (decls self.entry) place t expected actual) row.new }
    {
        row.begin(b"mismatch ", place);
        row.put(b" ");
        row.put_term(self.term(t), t);
        row.put_next(self.sort(expected));
        row.put_next(self.sort(actual));
        row.put(b"\n");
    }

    // `arity LINE HEAD COUNT`
    fn put_arity(self, place: usize, head: usize, count: usize, row: &mut Row)
        requires { HasRoom self row.old }
        ensures { Wrote row.old (arity_row (decls self.entry) place head count) row.new }
    {
        row.begin(b"arity ", place);
        row.put_next(self.head(head));
        row.begin(b" ", count);
        row.put(b"\n");
    }

    // `ok N passes P`, then a row for each term.
    pub(crate) fn put_ok(self, k: usize, row: &mut Row)
        requires { HasRoom self row.old }
        ensures { Wrote row.old (ok_row (decls self.entry) (exit self.entry) k) row.new }
    {
        if k == 0 {
            row.put_two(
                b"ok ",
                count_sorted(self.sort_list),
                b" passes ",
                self.ended.outcome.passes,
            );
        } else if let Some(sort) = cell(self.sort_list, k - 1).checked_sub(1) {
            self.put_sorted(k - 1, sort, row);
        }
    }

    // `open P`, then `unsorted LINE TERM`.
    pub(crate) fn put_open(self, k: usize, row: &mut Row)
        requires { HasRoom self row.old }
        ensures { Wrote row.old (open_row (decls self.entry) (exit self.entry) k) row.new }
    {
        match k {
            0 => row.put_one(b"open ", self.ended.outcome.passes),
            1 => self.put_unsorted(self.ended.outcome.place, self.ended.outcome.term, row),
            _ => (),
        }
    }

    // An error entry by its number.
    fn put_entry(self, i: usize, row: &mut Row)
        requires { HasRoom self row.old }
        ensures { Wrote row.old (entry_row (told (get_or self.entry.errors.now (i * entry_cells) 0)) (decls self.entry) (exit self.entry) i) row.new }
    {
        match self.entry(i) {
            Some(
                Entry::Mismatch {
                    place,
                    term,
                    expected,
                    actual,
                },
            ) => { self.put_mismatch(place, term, expected, actual, row) }
            Some(Entry::AllFailed { count }) => row.put_one(b"none ", count),
            Some(Entry::Arity { place, head, count }) => self.put_arity(place, head, count, row),
            None => (),
        }
    }

    // `conflict P`, then a row for each entry.
    pub(crate) fn put_conflict(self, k: usize, row: &mut Row)
        requires { HasRoom self row.old }
        ensures { Wrote row.old (conflict_row (decls self.entry) (exit self.entry) k) row.new }
    {
        match k.checked_sub(1) {
            None => row.put_one(b"conflict ", self.ended.outcome.passes),
            Some(i) => self.put_entry(i, row),
        }
    }
}
