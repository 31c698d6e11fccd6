// One line.
ghost use Rattle.std.specs.Prelude.{◌≡◌};
ghost use Rattle.text_definition.specs.Store.{decls_of};
ghost use Rattle.text_words.specs.Parts.{between as part_between};
ghost use Rattle.text_lines.specs.Lists.{store_in};
ghost use Rattle.text_lines.specs.Line.{joined, line_next, Readable, Taken};

use crate::{Lists, Printed};
use definition::Refusal;
use text_calls::say_line;
use text_declare::Step;
use text_definition::{Declared, Numbers};
use text_opening::open_line;
use text_words::parts::Parts;

// What was declared, then what was said: the number of the first refusal, or the numbers after both.
// Stays: a number, as `Step` has it and `Ended` takes it.
fn joined(declared: Step, said: Result<Numbers, Refusal>) -> Result<Numbers, usize>
    ensures { result ≡ joined declared said }
{
    if declared.refused != 0 {
        return Err(declared.refused);
    }
    said.map_err(|refusal| refusal.number())
}

// The line from `start` up to `end`. Answers the numbers after it.
pub fn line(
    text: &[u8],
    start: usize,
    end: usize,
    place: usize,
    n: Numbers,
    printed: &mut Printed,
    lists: &mut Lists,
) -> Result<Numbers, usize>
    requires { Readable text.now start end n }
    ensures { Taken text.now (line_next (decls_of text.now n (store_in printed.old lists.old)) (part_between text.now start end) place) result (store_in printed.new lists.new) }
{
    let opened = open_line(
        text,
        start,
        end,
        n,
        &mut lists.words,
        &mut printed.sort_names,
        &mut lists.global_names,
        &mut printed.head_names,
        &mut lists.signatures,
        &mut lists.signature_sorts,
        &mut lists.globals,
    );
    let declared = Declared {
        numbers: opened.step.numbers,
        sort_names: &printed.sort_names,
        global_names: &lists.global_names,
        head_names: &printed.head_names,
        signatures: &lists.signatures,
        signature_sorts: &lists.signature_sorts,
        globals: &lists.globals,
    };
    let said = say_line(
        opened.form,
        Parts {
            text,
            table: &lists.words,
            count: opened.count,
        },
        place,
        declared,
        &mut lists.numbers,
        &mut printed.term_names,
        &mut lists.terms,
        &mut lists.records,
        &mut lists.side,
        &mut lists.tops,
        &mut lists.range,
    );
    joined(opened.step, said)
}
