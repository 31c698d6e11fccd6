// Reading a text and writing its output, row by row.
#![tactic(auto)]

mod system;

ghost use Rattle.std.specs.Prelude.{◌+◌, ◌≡◌, length};
ghost use Rattle.text_definition.specs.Run.{max_bytes};
ghost use Rattle.text_definition.specs.Rows.{sorts_text};
ghost use Rattle.out_text.specs.Shows.{ShowsText};
ghost use Rattle.out_write.specs.Handed.{Handed};

use out_rows::{LINE_BYTES, Shown, row_count};
use out_text::{blank, shown, solve_text};
use std::fmt::InlineText;
use std::io;
use std::io::{Read, Stderr, Stdout, Write};
use system::{Broken, Noted, Reading, read_whole, write_whole};

// The longest text and one byte more: a longer one is refused, and is not read to its end.
const INPUT_BYTES: usize = 32769;

// More than the system's longest words for an error.
const REASON_BYTES: usize = 256;

// A function of its own, so that its contract holds the buffer's length to the longest text's.
fn input_room() -> [u8; INPUT_BYTES]
    ensures { length result ≡ max_bytes + 1 }
{
    [0; INPUT_BYTES]
}

// Writes the rows in order, up to the first that can't be written whole.
fn write_rows<W: Write>(to: &mut W, shown: Shown) -> Result<usize, Broken>
    requires { ShowsText shown }
    ensures { Handed (length (sorts_text shown.entry.text.now)) result }
{
    let mut line = [0u8; LINE_BYTES];
    let rows = row_count(shown.ended);
    let mut bytes = 0;
    for k in 0..rows {
        let n = shown.put_row(k, &mut line);
        match write_whole(to, &line[..n]) {
            Ok(row) => bytes += row,
            Err(broken) => return Err(broken.behind(bytes)),
        }
    }
    Ok(bytes)
}

// Writes the output of a text.
pub fn write_output<W: Write>(to: &mut W, text: &[u8]) -> Result<usize, Broken>
    ensures { Handed (length (sorts_text text.now)) result }
{
    let mut printed = blank();
    let ended = solve_text(text, &mut printed);
    write_rows(to, shown(&printed, text, ended))
}

// The system's words for an error: std puts its number behind them.
fn words_of(reason: &str) -> &str {
    match reason.split_once(" (os error ") {
        Some((words, _)) => words,
        None => reason,
    }
}

// Says on standard error what failed, by the name that it is given, and why.
pub fn fail(mut stderr: Stderr, what: &[u8], why: io::Error) {
    let reason = InlineText::<REASON_BYTES>::of(why);
    let _ = stderr.write_all(what);
    let _ = stderr.write_all(b": ");
    let _ = stderr.write_all(words_of(reason.as_str()).as_bytes());
    let _ = stderr.write_all(b"\n");
}

// Reads a text and writes its output to standard output. Where a read fails, nothing is answered. What failed is said on
// standard error, by the names that the input and the output are given here.
pub fn answer<R: Read>(
    from: &mut R,
    mut stdout: Stdout,
    stderr: Stderr,
    input: &[u8],
    output: &[u8],
) {
    let mut bytes = input_room();
    match read_whole(from, &mut bytes) {
        Err(broken) => fail(stderr, input, broken.why),
        Ok(Reading::End(n) | Reading::Full(n)) => {
            let mut to = Noted::new(&mut stdout);
            if let Err(broken) = write_output(&mut to, &bytes[..n]) {
                fail(stderr, output, to.reason(broken));
            }
        }
    }
}
