// Lines that say something of terms: their terms are named, then each is one call of a generator.
#![tactic(auto)]

ghost use Rattle.std.specs.Prelude.{◌*◌, ◌≤◌, ◌≡◌, true, length};
ghost use Rattle.text_words.specs.Parts.{all_of};
ghost use Rattle.text_definition.specs.Store.{decls_of};
ghost use Rattle.text_calls.specs.Shape.{words_fit, say_of};
ghost use Rattle.text_calls.specs.Line.{store_of, Speaks, Ends};

use ask::{answered, ask};
use definition::Refusal;
use text_definition::{Declared, Numbers};
use text_grammar::Form;
use text_terms::call::numbers_by;
use text_terms::hearing::hear;
use text_terms::shape::shape_of;
use text_terms::terms::name_fresh;
use text_words::parts::Parts;

mod ask;

// A line whose words its form has: its terms are named, then it calls, and the fresh terms get their empty names. Any other
// than one of terms leaves everything as it is. Answers the numbers after it.
pub fn say_line(
    f: Form,
    line: Parts,
    place: usize,
    declared: Declared,
    numbers: &mut [usize],
    term_names: &mut [usize],
    terms: &mut [usize],
    records: &mut [usize],
    side: &mut [usize],
    tops: &mut [usize],
    range: &mut [usize],
) -> Result<Numbers, Refusal>
    requires count_value { words_fit f line.count ≡ true }
    requires speaks { Speaks line.table.now numbers.old line.count declared.numbers (store_of declared term_names.old terms.old records.old side.old tops.old range.old) }
    ensures { Ends line.entry.text.now declared.entry.numbers (say_of f (decls_of line.entry.text.now declared.entry.numbers (store_of declared.entry term_names.old terms.old records.old side.old tops.old range.old)) (all_of line.entry) place) result (store_of declared.entry term_names.new terms.new records.new side.new tops.new range.new) }
{
    let shape = shape_of(f, line.count);
    if shape.way.is_silent() {
        return Ok(declared.numbers);
    }
    let heard = hear(shape, line, place, declared, term_names, terms, numbers);
    heard.full?;
    let done = ask(
        shape.way,
        heard.call,
        heard.sort,
        declared,
        heard.named,
        terms,
        numbers,
        records,
        side,
        tops,
        range,
    );
    let counts = answered(done)?;
    name_fresh(term_names, heard.named, counts.terms);
    Ok(numbers_by(declared.numbers, counts))
}
