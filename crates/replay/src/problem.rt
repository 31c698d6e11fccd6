// A problem: the six counts; the cells lent of the three buffers; and the lists of records, side, tops and range.
use crate::buffers::{self, Lent};
use definition::{Counts, Problem};
use replay_io::line::list;
use replay_io::output::Output;

pub fn put_answer(line: &[usize], output: &mut Output) -> Option<()> {
    let (head, mut rest) = line.split_first_chunk::<9>()?;
    let [
        records,
        side,
        tops,
        range,
        terms,
        sorts,
        work,
        sort_list,
        errors,
    ] = *head;
    let counts = Counts {
        records,
        side,
        tops,
        range,
        terms,
        sorts,
    };
    let lent = Lent {
        work,
        sort_list,
        errors,
    };
    let problem = Problem {
        counts,
        records: list(&mut rest)?,
        side: list(&mut rest)?,
        tops: list(&mut rest)?,
        range: list(&mut rest)?,
    };
    buffers::put_answer(lent, output, |work, sort_list, errors| {
        solver::solve(problem, work, sort_list, errors)
    })
}
