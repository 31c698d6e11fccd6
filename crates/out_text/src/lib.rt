// From the bytes of a text to the bytes of its output, in lent memory. What the lines need besides what the rows show are
// local arrays of the largest sizes.
#![tactic(auto)]

ghost use Rattle.std.specs.Prelude.{◌≡◌, ◌+◌, ◌≤◌, length};
ghost use Rattle.text_definition.specs.Rows.{sorts_text};
ghost use Rattle.out_text.specs.Front.{at_front};
ghost use Rattle.out_text.specs.Shows.{Shows, ShowsText, IsShown, blank, PutWhole};

use out_rows::{LINE_BYTES, Shown, row_count};
use text_definition::Ended;
use text_lines::{Lists, Printed, read_text};
use text_words::put::put;

// Two cells for each of 256 names, terms and range entries.
pub const PAIRS: usize = 512;

// Ten cells for each of 256 signatures.
const SIGNATURE_CELLS: usize = 2560;

const SIGNATURE_SORTS: usize = 2048;

const GLOBALS: usize = 256;

// Eight cells for each of 512 records, and of as many error entries.
pub const RECORD_CELLS: usize = 4096;

const SIDE_CELLS: usize = 2048;

const TOPS: usize = 512;

// Two cells for each word of the longest line.
const WORD_CELLS: usize = 65538;

// The numbers of a line's terms.
const NUMBER_CELLS: usize = 2051;

// 18 frames of 256 terms and 512 records.
const WORK_CELLS: usize = 13824;

pub const TERMS: usize = 256;

// The lists that the rows are put from, as zeroes.
pub fn blank() -> Printed
    ensures { result ≡ blank }
{
    Printed {
        sort_names: [0; PAIRS],
        head_names: [0; PAIRS],
        term_names: [0; PAIRS],
        sort_list: [0; TERMS],
        errors: [0; RECORD_CELLS],
    }
}

// What the rows of a text show that ended so.
pub fn shown<'a>(printed: &'a Printed, text: &'a [u8], ended: Ended) -> Shown<'a>
    ensures { IsShown printed.now text.now ended result }
{
    Shown {
        text,
        sort_names: &printed.sort_names,
        head_names: &printed.head_names,
        term_names: &printed.term_names,
        sort_list: &printed.sort_list,
        errors: &printed.errors,
        ended,
    }
}

// Reads a text and solves. The lists are left so that `Shown::put_row` puts the text's rows from them.
pub fn solve_text(text: &[u8], printed: &mut Printed) -> Ended
    ensures { let p = printed.new in Shows text.now p.sort_names p.head_names p.term_names p.sort_list p.errors result }
{
    let mut lists = Lists {
        global_names: [0; PAIRS],
        signatures: [0; SIGNATURE_CELLS],
        signature_sorts: [0; SIGNATURE_SORTS],
        globals: [0; GLOBALS],
        terms: [0; PAIRS],
        records: [0; RECORD_CELLS],
        side: [0; SIDE_CELLS],
        tops: [0; TOPS],
        range: [0; PAIRS],
        words: [0; WORD_CELLS],
        numbers: [0; NUMBER_CELLS],
        work: [0; WORK_CELLS],
    };
    read_text(text, printed, &mut lists)
}

// Puts a copy of the bytes where they fit. Answers the place behind them, whether they fit or not; the bound lets that
// place be a number.
// Stays: the place is handed on beside the list, since it goes on where nothing is put any more.
fn put_fitting(out: &mut [u8], at: usize, bytes: &[u8]) -> usize
    requires { at + length bytes.now ≤ 100000000 }
    ensures { PutWhole out.old at bytes.now result out.new }
{
    let end = at + bytes.len();
    if end <= out.len() {
        return put(out, at, bytes);
    }
    end
}

// Puts the rows one after another at the front of `out`, where all fit. Answers how many bytes they are.
fn put_rows(shown: Shown, out: &mut [u8]) -> usize
    requires { ShowsText shown }
    ensures { PutWhole out.old 0 (sorts_text shown.entry.text.now) result out.new }
{
    let mut line = [0u8; LINE_BYTES];
    let rows = row_count(shown.ended);
    let mut at = 0;
    for k in 0..rows {
        let n = shown.put_row(k, &mut line);
        at = put_fitting(out, at, &line[..n]);
    }
    at
}

// How many bytes the whole output has.
// Stays: a `requires`, and no field that says so. `count_bytes` takes any lists that show the text's output.
pub fn count_bytes(shown: Shown) -> usize
    requires { ShowsText shown }
    ensures { result ≡ length (sorts_text shown.entry.text.now) }
{
    put_rows(shown, &mut [0])
}

// The rows at the front of `out` where all fit, nothing where they don't.
#[tactic(auto, using(crate::specs::Shows::front_kept))]
fn put_answer(shown: Shown, out: &mut [u8]) -> usize
    requires { ShowsText shown }
    ensures value { result ≡ length (sorts_text shown.entry.text.now) }
    ensures out_after { out.new ≡ at_front (sorts_text shown.entry.text.now) out.old }
{
    let bytes = count_bytes(shown);
    if out.len() < bytes {
        return bytes;
    }
    put_rows(shown, out)
}

// Puts the whole output of a text at the front of `out` where it fits. Answers how many bytes it has, whether it fits or
// not.
pub fn put_text(text: &[u8], out: &mut [u8]) -> usize
    ensures value { result ≡ length (sorts_text text.now) }
    ensures out_after { out.new ≡ at_front (sorts_text text.now) out.old }
{
    let mut printed = blank();
    let ended = solve_text(text, &mut printed);
    put_answer(shown(&printed, text, ended), out)
}
