// The three buffers that a problem and a body are lent: work room, sort list, error list. They hold 9s, 8s and 7s before the
// call, and the line says how many cells of each are lent.
use definition::Outcome;
use replay_io::output::Output;

// as many cells as a line may lend
const WORK_CELLS: usize = 13924;

const SORT_CELLS: usize = 321;

const ERROR_CELLS: usize = 4232;

// As many cells of each are lent.
#[derive(Clone, Copy)]
pub struct Lent {
    pub work: usize,
    pub sort_list: usize,
    pub errors: usize,
}

// The answer, and its line. There is none where more is lent than there is room for.
pub fn put_answer<F: FnOnce(&mut [usize], &mut [usize], &mut [usize]) -> Outcome>(
    lent: Lent,
    output: &mut Output,
    answer: F,
) -> Option<()>
    requires { F.IsAlwaysCallable answer }
{
    let mut work = [9; WORK_CELLS];
    let mut sort_list = [8; SORT_CELLS];
    let mut errors = [7; ERROR_CELLS];
    let work = work.get_mut(..lent.work)?;
    let sort_list = sort_list.get_mut(..lent.sort_list)?;
    let errors = errors.get_mut(..lent.errors)?;
    let outcome = answer(work, sort_list, errors);
    output.put_answer(outcome, work, sort_list, errors);
    Some(())
}
