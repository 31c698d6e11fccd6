// A line of terms as it is heard: its terms are named, and its call is known by their numbers.
ghost use Rattle.text_terms.specs.Call.{Hearable, Hears};

use crate::call::{Call, call_of, number_of};
use crate::full::full_refusal;
use crate::shape::Shape;
use crate::terms::name_line;
use definition::Refusal;
use text_definition::Declared;
use text_words::parts::Parts;

// How many terms there are then, one more than there may be where they are too many; the call; a typed local's sort; the
// refusal of a line with too many.
#[derive(Clone, Copy, Debug, PartialEq, Eq)]
pub struct Heard {
    pub named: usize,
    pub call: Call,
    pub sort: usize,
    pub full: Result<(), Refusal>,
}

pub fn hear(
    shape: Shape,
    line: Parts,
    place: usize,
    declared: Declared,
    term_names: &mut [usize],
    terms: &mut [usize],
    numbers: &mut [usize],
) -> Heard
    requires { Hearable shape line declared term_names.old }
    ensures { Hears shape line.entry place declared.entry term_names.old terms.old numbers.old result term_names.new terms.new numbers.new }
{
    let sorts = Parts {
        text: line.text,
        table: declared.sort_names,
        count: declared.numbers.sorts,
    };
    let heads = Parts {
        text: line.text,
        table: declared.head_names,
        count: declared.numbers.heads,
    };
    let named = name_line(line, shape, declared, term_names, terms, numbers);
    let call = call_of(line, place, shape, heads, numbers);
    Heard {
        named,
        call,
        sort: number_of(line, shape.way.sort_word(), sorts),
        full: full_refusal(shape, named, line.count, call.head, declared),
    }
}
