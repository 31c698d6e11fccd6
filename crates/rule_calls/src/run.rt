// The atoms or actions of a call, in order.
ghost use Rattle.std.specs.Prelude.{◌+◌, ◌*◌, ◌≡◌, get_or};
ghost use Rattle.definition.specs.declared.Counts.{Counts};
ghost use Rattle.definition.specs.Numbers.{number_of};
ghost use Rattle.rule_steps.specs.Step.{state, Steps};
ghost use Rattle.rule_calls.specs.Left.{told, refused_with, verdict_over, RunLeft};

use crate::Refused;
use definition::{Counts, Refusal};
use rule_lent::Tables;
use rule_lent::calls::Listed;
use rule_steps::{Lengths, head_of, place_of, step};

// Refusals from here on carry the head and the place.
const OF_HEAD: usize = 20;

// The refusal of atom or action i.
fn refused_at(refusal: Refusal, calls: &[usize], i: usize) -> Refused
    ensures { (counts : Counts) → told counts (Err result) ≡ refused_with (number_of refusal) (get_or calls.now (i * 8 + 1) 0) (get_or calls.now (i * 8 + 6) 0) counts }
{
    let refused = Refused::from(refusal);
    if refusal.number() < OF_HEAD {
        return refused;
    }
    Refused {
        head: head_of(calls, i),
        place: place_of(calls, i),
        ..refused
    }
}

// The first that is refused ends it, and the lists are then of no use.
// Still apart: the lists that are written. A struct of them is to be tried (docs/DESIGN-PASS.md).
pub fn run(
    listed: Listed,
    tables: Tables,
    terms: &[usize],
    lengths: Lengths,
    counts: Counts,
    records: &mut [usize],
    side: &mut [usize],
    tops: &mut [usize],
    range: &mut [usize],
    marks: &mut [usize],
) -> Result<Counts, Refused>
    requires { Steps tables.lent.signatures tables.lent.context tables.arguments.now counts }
    ensures { RunLeft counts (verdict_over listed tables.entry terms.now lengths (state counts records.old side.old tops.old range.old marks.old)) records.new side.new tops.new range.new (told counts result) }
{
    let mut reached = counts;
    for i in 0..tables.lent.calls {
        match step(
            listed, i, tables, terms, lengths, reached, records, side, tops, range, marks,
        ) {
            Ok(after) => reached = after,
            Err(refusal) => return Err(refused_at(refusal, tables.calls, i)),
        }
    }
    Ok(reached)
}
