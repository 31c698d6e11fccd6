// A call: which, and the context; the counts of signatures, signature sorts, globals, items and arguments; the six counts;
// and the lists of signatures, signature sorts, globals, terms, records, side, tops, range, items and arguments.
use definition::Counts;
use replay_io::input::LINE_FEED;
use replay_io::line::{LIST_CELLS, list};
use replay_io::output::Output;
use rule_calls::{Added, add_actions, add_query, assign_local_var_type};
use rule_cells::cell;
use rule_lent::{Lent, Tables};

// Which call.
#[derive(Clone, Copy)]
enum Which {
    Query,
    Actions,
    Local,
}

impl From<usize> for Which {
    fn from(number: usize) -> Which {
        match number {
            0 => Which::Query,
            1 => Which::Actions,
            _ => Which::Local,
        }
    }
}

impl Which {
    // The call's answer.
    fn added(
        self,
        tables: Tables,
        counts: Counts,
        terms: &mut [usize],
        records: &mut [usize],
        side: &mut [usize],
        tops: &mut [usize],
        range: &mut [usize],
    ) -> Added {
        match self {
            Which::Query => add_query(tables, counts, terms, records, side, tops, range),
            Which::Actions => add_actions(tables, counts, terms, records, side, tops, range),
            // its items are its term, sort and place
            Which::Local => {
                let items = tables.calls;
                let term = cell(items, 0);
                let sort = cell(items, 1);
                let place = cell(items, 2);
                assign_local_var_type(counts, term, sort, place, terms, side, records, tops, range)
            }
        }
    }
}

// The numbers at the head of a line.
#[derive(Clone, Copy)]
struct Head {
    which: Which,
    lent: Lent,
    counts: Counts,
}

impl From<[usize; 13]> for Head {
    fn from(numbers: [usize; 13]) -> Head {
        let [
            which,
            context,
            signatures,
            signature_sorts,
            globals,
            calls,
            arguments,
            records,
            side,
            tops,
            range,
            terms,
            sorts,
        ] = numbers;
        Head {
            which: Which::from(which),
            lent: Lent {
                context,
                signatures,
                signature_sorts,
                globals,
                calls,
                arguments,
            },
            counts: Counts {
                records,
                side,
                tops,
                range,
                terms,
                sorts,
            },
        }
    }
}

// NUMBER HEAD PLACE and the six counts
fn put_added(added: Added, output: &mut Output) {
    let counts = added.counts;
    output.put_number(added.number);
    output.put_spaced(&[
        added.head,
        added.place,
        counts.records,
        counts.side,
        counts.tops,
        counts.range,
        counts.terms,
        counts.sorts,
    ]);
}

// A list of the line, in a buffer of its own.
fn copied<'a>(list: &[usize], room: &'a mut [usize]) -> Option<&'a mut [usize]> {
    let own = room.get_mut(..list.len())?;
    own.copy_from_slice(list);
    Some(own)
}

// The answer line: the answer, and each list at exit in runs. The lists that the call may write are copied out of the line.
pub fn put_answer(line: &[usize], output: &mut Output) -> Option<()> {
    let (head, mut rest) = line.split_first_chunk::<13>()?;
    let head = Head::from(*head);
    let mut terms = [0; LIST_CELLS];
    let mut records = [0; LIST_CELLS];
    let mut side = [0; LIST_CELLS];
    let mut tops = [0; LIST_CELLS];
    let mut range = [0; LIST_CELLS];
    let signatures = list(&mut rest)?;
    let signature_sorts = list(&mut rest)?;
    let globals = list(&mut rest)?;
    let terms = copied(list(&mut rest)?, &mut terms)?;
    let records = copied(list(&mut rest)?, &mut records)?;
    let side = copied(list(&mut rest)?, &mut side)?;
    let tops = copied(list(&mut rest)?, &mut tops)?;
    let range = copied(list(&mut rest)?, &mut range)?;
    let tables = Tables {
        lent: head.lent,
        signatures,
        signature_sorts,
        globals,
        calls: list(&mut rest)?,
        arguments: list(&mut rest)?,
    };
    let which = head.which;
    let added = which.added(tables, head.counts, terms, records, side, tops, range);
    put_added(added, output);
    output.put_list(b" | terms", terms);
    output.put_list(b" | records", records);
    output.put_list(b" | side", side);
    output.put_list(b" | tops", tops);
    output.put_list(b" | range", range);
    output.put(LINE_FEED);
    Some(())
}
