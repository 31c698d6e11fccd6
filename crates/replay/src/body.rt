// A body: the counts of atoms, arguments and terms; the rule's place; the cells lent of the three buffers; and the lists of
// atoms, arguments and terms.
use crate::buffers::{self, Lent};
use grounded::grounded_check;
use grounded_body::{Body, BodyCounts};
use replay_io::line::list;
use replay_io::output::Output;

pub fn put_answer(line: &[usize], output: &mut Output) -> Option<()> {
    let (head, mut rest) = line.split_first_chunk::<7>()?;
    let [atoms, arguments, terms, place, work, sort_list, errors] = *head;
    let counts = BodyCounts {
        atoms,
        arguments,
        terms,
    };
    let lent = Lent {
        work,
        sort_list,
        errors,
    };
    let body = Body {
        counts,
        place,
        atoms: list(&mut rest)?,
        arguments: list(&mut rest)?,
        terms: list(&mut rest)?,
    };
    buffers::put_answer(lent, output, |work, sort_list, errors| {
        grounded_check(body, work, sort_list, errors)
    })
}
