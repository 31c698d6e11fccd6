// All lines in order, up to the first that is refused.
ghost use Rattle.std.specs.Prelude.{◌≡◌, ◌≤◌, length};
ghost use Rattle.text_definition.specs.Run.{max_bytes};
ghost use Rattle.text_definition.specs.Store.{decls_of};
ghost use Rattle.text_words.specs.Parts.{between as part_between};
ghost use Rattle.text_lines.specs.Lists.{store_in};
ghost use Rattle.text_lines.specs.Line.{line_next, Readable};
ghost use Rattle.text_lines.specs.Run.{none as none_yet, Told, LinesRead};

use crate::line::line;
use crate::{Lists, Printed};
use definition::Counts;
use text_definition::Numbers;
use text_words::names;

// A refusal's number, and its line.
// Stays: a number, as `Step` has it and `Ended` takes it.
#[derive(Clone, Copy, Debug, PartialEq, Eq)]
pub struct Refused {
    pub number: usize,
    pub place: usize,
}

// Nothing is declared.
pub fn none() -> Numbers
    ensures { result ≡ none_yet }
{
    Numbers {
        sorts: 0,
        globals: 0,
        heads: 0,
        terms: 0,
        used: 0,
        context: 0,
        problem: Counts {
            records: 0,
            side: 0,
            tops: 0,
            range: 0,
            terms: 0,
            sorts: 0,
        },
    }
}

// One line. Behind a refused one nothing is read: the refusal is told, with its line.
fn read_line(
    text: &[u8],
    start: usize,
    end: usize,
    place: usize,
    n: Numbers,
    printed: &mut Printed,
    lists: &mut Lists,
) -> Result<Numbers, Refused>
    requires { Readable text.now start end n }
    ensures { Told text.now (line_next (decls_of text.now n (store_in printed.old lists.old)) (part_between text.now start end) place) place result (store_in printed.new lists.new) }
{
    match line(text, start, end, place, n, printed, lists) {
        Ok(after) => Ok(after),
        Err(number) => Err(Refused { number, place }),
    }
}

// Answers the numbers after the last line.
pub fn read_lines(text: &[u8], printed: &mut Printed, lists: &mut Lists) -> Result<Numbers, Refused>
    requires { length text.now ≤ max_bytes }
    ensures { LinesRead text.now (store_in printed.old lists.old) result (store_in printed.new lists.new) }
{
    let mut numbers = none();
    let mut place = 0;
    let mut at = 0;
    // Stays: a `while`, since where the next line begins is found in the text.
    while at <= text.len() {
        place += 1;
        let end = names::find_byte(text, at, b'\n');
        numbers = read_line(text, at, end, place, numbers, printed, lists)?;
        at = end + 1;
    }
    Ok(numbers)
}
