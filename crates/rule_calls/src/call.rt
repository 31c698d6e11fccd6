// A whole call: nothing that is lent is written before the call's answer is known.
ghost use Rattle.std.specs.Prelude.{ℕ, ◌*◌, ◌≡◌, List};
ghost use Rattle.solve_records.specs.Lent.{lent as problem_of};
ghost use Rattle.rule_lent.specs.Lend.{lends};
ghost use Rattle.rule_steps.specs.Step.{state, Steps};
ghost use Rattle.rule_calls.specs.Exit.{state_of, call_verdict, answer_of};
ghost use Rattle.rule_calls.specs.Left.{told, verdict_over, Ready, CallLeft};

use crate::run::run;
use crate::{Refused, lengths_of};
use definition::{Counts, Problem};
use rule_lent::calls::Listed;
use rule_lent::{Tables, lent_refusal};
use rule_ranges::{MARKS, mark_range};
use rule_signatures::TERM_CELLS;
use rule_steps::Lengths;

// The answer that the call will have: it depends on no list that the call adds to, so that it is run over lists of one cell.
fn foresee(
    listed: Listed,
    tables: Tables,
    terms: &[usize],
    lengths: Lengths,
    counts: Counts,
    mut marks: [usize; MARKS],
) -> Result<Counts, Refused>
    requires { Steps tables.lent.signatures tables.lent.context tables.arguments.now counts }
    ensures { (records side tops entries : List ℕ) → told counts result ≡ answer_of counts (verdict_over listed tables.entry terms.now lengths (state counts records side tops entries marks)) }
{
    let mut records = [0usize; 1];
    let mut side = [0usize; 1];
    let mut tops = [0usize; 1];
    let mut range = [0usize; 1];
    run(
        listed,
        tables,
        terms,
        lengths,
        counts,
        &mut records,
        &mut side,
        &mut tops,
        &mut range,
        &mut marks,
    )
}

// A call that passes 1 and 2, over tables that are cut to their counts.
// Still apart: the lists that are written, as in `run`.
fn add_fitting(
    listed: Listed,
    tables: Tables,
    terms: &[usize],
    lengths: Lengths,
    counts: Counts,
    records: &mut [usize],
    side: &mut [usize],
    tops: &mut [usize],
    range: &mut [usize],
) -> Result<Counts, Refused>
    requires { Ready tables.lent tables.arguments.now range.old counts }
    ensures { CallLeft (problem_of counts records.old side.old tops.old range.old) (verdict_over listed tables.entry terms.now lengths (state_of (problem_of counts records.old side.old tops.old range.old))) records.new side.new tops.new range.new (told counts result) }
{
    let mut marks = [0usize; MARKS];
    mark_range(range, counts.range, &mut marks);
    let foreseen = foresee(listed, tables, terms, lengths, counts, marks);
    foreseen?;
    run(
        listed, tables, terms, lengths, counts, records, side, tops, range, &mut marks,
    )
}

// A query's atoms or a list of actions.
// Still apart: the lists that are written, as in `run`.
pub fn add(
    listed: Listed,
    tables: Tables,
    counts: Counts,
    terms: &[usize],
    records: &mut [usize],
    side: &mut [usize],
    tops: &mut [usize],
    range: &mut [usize],
) -> Result<Counts, Refused>
    ensures { CallLeft (problem_of counts records.old side.old tops.old range.old) (call_verdict (lends listed tables.entry terms.now (problem_of counts records.old side.old tops.old range.old))) records.new side.new tops.new range.new (told counts result) }
{
    let problem = Problem {
        counts,
        records,
        side,
        tops,
        range,
    };
    lent_refusal(listed, tables, terms, problem)?;
    let lengths = lengths_of(problem, terms);
    let lent = tables.lent;
    let cut = Tables {
        signature_sorts: &tables.signature_sorts[..lent.signature_sorts],
        globals: &tables.globals[..lent.globals],
        arguments: &tables.arguments[..lent.arguments],
        ..tables
    };
    let bound = &terms[..counts.terms * TERM_CELLS];
    add_fitting(
        listed, cut, bound, lengths, counts, records, side, tops, range,
    )
}
