// The output: its rows one at a time, each put into a lent line.
#![tactic(auto)]

mod pieces;
mod row;
mod rows;

ghost use Rattle.std.specs.Prelude.{◌≡◌, ◌≤◌, length};
ghost use Rattle.text_words.specs.Put.{Put};
ghost use Rattle.text_definition.specs.Rows.{ending_of, solved_row};
ghost use Rattle.out_rows.specs.Shown.{shown, decls, exit, HasRoom};
ghost use Rattle.out_rows.specs.Row.{Wrote};
ghost use Rattle.out_rows.specs.Laws.{is_conflict};
ghost use Rattle.out_rows.specs.Room.{fitted, counted_rows};

use row::Row;
use text_definition::Ended;

// A line of so many bytes has room for every row of every text.
pub const LINE_BYTES: usize = 98404;

// The longest row has three names, and so many bytes beside them.
const NAMES: usize = 3;

const BESIDES: usize = 100;

const MOST_TERMS: usize = 256;

const MOST_RECORDS: usize = 512;

// What the rows show: a text, the tables of names that are printed, the sort list, the error list, and how the text ended.
#[derive(Clone, Copy)]
pub struct Shown<'a> {
    pub text: &'a [u8],
    pub sort_names: &'a [usize],
    pub head_names: &'a [usize],
    pub term_names: &'a [usize],
    pub sort_list: &'a [usize],
    pub errors: &'a [usize],
    pub ended: Ended,
}

// Stays: `refused` and the outcome's number are any numbers, as `row_count` and `put_row` promised of every `Ended`.
// How many rows there are. Numbers past the largest sizes, which no text leaves, have none.
pub fn row_count(ended: Ended) -> usize
    ensures { result ≡ counted_rows ended }
{
    if ended.refused != 0 {
        return 1;
    }
    let terms = ended.numbers.terms;
    let records = ended.numbers.problem.records;
    if MOST_TERMS < terms || MOST_RECORDS < records {
        return 0;
    }
    terms + records + 2
}

// 30, 32 and 33 have entries to show.
#[tactic(auto, using(std::proofs::lemmas::Bool::Decides::nat_tests))]
fn is_conflict(number: usize) -> bool
    ensures { result ≡ is_conflict number }
{
    matches!(number, 30 | 32 | 33)
}

impl Shown<'_> {
    // Row k of what was solved.
    fn put_solved(self, k: usize, row: &mut Row)
        requires { HasRoom self row.old }
        ensures { Wrote row.old (solved_row (ending_of self.entry.ended.outcome.number) (decls self.entry) (exit self.entry) k) row.new }
    {
        match self.ended.outcome.number {
            0 => self.put_ok(k, row),
            31 => self.put_open(k, row),
            number if is_conflict(number) => self.put_conflict(k, row),
            number => row.put_refused(k, number, 0),
        }
    }

    // Puts row k at the front of the line. Answers its length; 0 where the line is too short for some row.
    pub fn put_row(self, k: usize, line: &mut [u8]) -> usize
        ensures put { Put line.old 0 (fitted self.entry.text.now (length line.old) (shown self.entry) k) result line.new }
        ensures upper_bound { result ≤ length line.old }
    {
        if line.len() < BESIDES {
            return 0;
        }
        let names = (line.len() - BESIDES) / NAMES;
        let mut row = Row { line, at: 0 };
        if self.ended.refused != 0 {
            row.put_refused(k, self.ended.refused, self.ended.place);
            return row.at;
        }
        if names < self.text.len() {
            return 0;
        }
        self.put_solved(k, &mut row);
        row.at
    }
}
