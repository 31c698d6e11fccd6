// What solving left: its number, term and place; how many records were solved; and the error list. The answer is the
// type errors, in preorder.
use definition::Outcome;
use replay_io::input::LINE_FEED;
use replay_io::line::list;
use replay_io::output::Output;
use type_errors::{TypeError, of_outcome, to_type_error};

// An entry is 8 cells, of which this is its place.
const PLACE_CELL: usize = 2;

// A type error's number, its place and three values. A failure of all alternatives has no place.
fn put_error(error: TypeError, place: usize, output: &mut Output) {
    output.put_all(b" |");
    output.put_spaced(&match error {
        TypeError::Mismatch(term, expected, actual) => [30, place, term, expected, actual],
        TypeError::InferenceFailure(term) => [31, place, term, 0, 0],
        TypeError::AllAlternativeFailed(count) => [32, 0, count, 0, 0],
        TypeError::Arity(head, expected) => [33, place, head, expected, 0],
    });
}

// Each entry of the error list, up to the first that is none.
fn put_entries(errors: &[usize], records: usize, output: &mut Output) {
    let (entries, _) = errors.as_chunks::<8>();
    for (number, entry) in entries.iter().take(records).enumerate() {
        let Ok(Some(error)) = to_type_error(errors, records, number) else {
            return;
        };
        put_error(error, entry[PLACE_CELL], output);
    }
}

// The outcome's number and its type errors.
pub fn put_answer(line: &[usize], output: &mut Output) -> Option<()> {
    let (head, mut rest) = line.split_first_chunk::<4>()?;
    let [number, term, place, records] = *head;
    let errors = list(&mut rest)?;
    let outcome = Outcome {
        number,
        passes: 0,
        term,
        place,
    };
    output.put_number(number);
    if let Ok(error) = of_outcome(outcome) {
        put_error(error, place, output);
    }
    put_entries(errors, records, output);
    output.put(LINE_FEED);
    Some(())
}
