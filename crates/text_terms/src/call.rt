// The call that a line is, by the numbers of its words.
ghost use Rattle.std.specs.Prelude.{◌+◌, ◌≡◌};
ghost use Rattle.text_words.specs.Parts.{Whole, all_of};
ghost use Rattle.text_definition.specs.Run.{at};
ghost use Rattle.text_terms.specs.Shape.{Shaped};
ghost use Rattle.text_terms.specs.Call.{number_at, number_of, call_by, call_cells, lent_by, counts_by, numbers_by};

use crate::shape::Shape;
use definition::Counts;
use rule_cells::cell;
use rule_lent::Lent;
use text_definition::Numbers;
use text_words::parts::Parts;

// Its kind, its head, which words are its arguments, its x and y, its place.
#[derive(Clone, Copy, Debug, PartialEq, Eq)]
pub struct Call {
    pub kind: usize,
    pub head: usize,
    pub start: usize,
    pub given: usize,
    pub x: usize,
    pub y: usize,
    pub place: usize,
}

// Word i of a line; nothing where there is none.
fn word_at<'a>(line: Parts<'a>, i: usize) -> &'a [u8]
    requires { Whole line }
    ensures { result.now ≡ at (all_of line.entry) i }
{
    if i < line.count {
        line.at(i)
    } else {
        &line.text[..0]
    }
}

fn number_at(numbers: &[usize], i: usize, end: usize) -> usize
    ensures { result ≡ number_at numbers.now i end }
{
    if i < end { cell(numbers, i) } else { 0 }
}

// The number of the name that a word is; 0 where the line has no such word.
pub fn number_of(line: Parts, word: Option<usize>, names: Parts) -> usize
    requires line_whole { Whole line }
    requires names_whole { Whole names }
    ensures { result ≡ number_of word (all_of line.entry) (all_of names.entry) }
{
    match word {
        Some(i) => names.find(word_at(line, i)),
        None => 0,
    }
}

pub fn call_of(
    line: Parts,
    place: usize,
    shape: Shape,
    head_names: Parts,
    numbers: &[usize],
) -> Call
    requires shaped { Shaped shape line.count }
    requires line_whole { Whole line }
    requires names_whole { Whole head_names }
    ensures { result ≡ call_by shape (all_of line.entry) (all_of head_names.entry) numbers.now place }
{
    Call {
        kind: shape.kind,
        head: number_of(line, shape.head, head_names),
        start: shape.args.start,
        given: shape.args.end - shape.args.start,
        x: number_at(numbers, shape.others.start, shape.others.end),
        y: number_at(numbers, shape.others.start + 1, shape.others.end),
        place,
    }
}

// A call's cells, as the generators take them.
pub fn call_cells(call: Call) -> [usize; 8]
    ensures { result ≡ call_cells call }
{
    [
        call.kind, call.head, 0, call.given, call.x, call.y, call.place, 0,
    ]
}

// What a call is lent, besides the problem.
pub fn lent_by(n: Numbers, given: usize) -> Lent
    ensures { result ≡ lent_by n given }
{
    Lent {
        signatures: n.heads,
        signature_sorts: n.used,
        globals: n.globals,
        context: n.context,
        calls: 1,
        arguments: given,
    }
}

// The problem's counts, with so many terms.
pub fn counts_by(n: Numbers, terms: usize) -> Counts
    ensures { result ≡ counts_by n terms }
{
    Counts {
        terms,
        sorts: n.sorts,
        ..n.problem
    }
}

// The numbers after a call that left these counts.
pub fn numbers_by(n: Numbers, counts: Counts) -> Numbers
    ensures { result ≡ numbers_by n counts }
{
    Numbers {
        terms: counts.terms,
        problem: counts,
        ..n
    }
}
