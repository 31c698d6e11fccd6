// The generator that a line calls.
ghost use Rattle.std.specs.Prelude.{◌≤◌, ◌≡◌};
ghost use Rattle.definition.specs.Sizes.{max_terms};
ghost use Rattle.solve_records.specs.Lent.{lent as problem_of};
ghost use Rattle.text_terms.specs.Call.{lent_by, counts_by};
ghost use Rattle.text_calls.specs.Ask.{verdict_by, Asked};
ghost use Rattle.text_calls.specs.Refusal.{refusal_of, answered};

use definition::{Counts, Refusal};
use rule_calls::{Added, add_actions, add_query, assign_local_var_type};
use rule_cells::part;
use rule_lent::Tables;
use text_definition::Declared;
use text_terms::call::{Call, call_cells, counts_by, lent_by};
use text_terms::shape::Way;

// The refusal of a call with this number.
// Stays: a number is read back, since `Added`, which C has, is what a call answers.
#[tactic(auto, unfolding(crate::specs::Refusal::refusal_of))]
fn refusal_of(number: usize) -> Refusal
    ensures { result ≡ refusal_of number }
{
    match number {
        1 => Refusal::TooMany,
        2 => Refusal::OutOfRange,
        7 => Refusal::Miscounted,
        8 => Refusal::Empty,
        9 => Refusal::Unbound,
        20 => Refusal::UnboundFunction,
        21 => Refusal::SetConstructorDisallowed,
        _ => Refusal::NoRoom,
    }
}

// The counts after a call, or its refusal.
pub fn answered(done: Added) -> Result<Counts, Refusal>
    ensures { result ≡ answered done }
{
    if done.number == 0 {
        Ok(done.counts)
    } else {
        Err(refusal_of(done.number))
    }
}

// The call of a line, by its way, with so many terms named; `sort` is a typed local's.
pub fn ask(
    way: Way,
    call: Call,
    sort: usize,
    declared: Declared,
    named: usize,
    terms: &mut [usize],
    numbers: &[usize],
    records: &mut [usize],
    side: &mut [usize],
    tops: &mut [usize],
    range: &mut [usize],
) -> Added
    requires { named ≤ max_terms }
    ensures { Asked (problem_of (counts_by declared.entry.numbers named) records.old side.old tops.old range.old) (verdict_by way call sort (lent_by declared.entry.numbers call.given) (problem_of (counts_by declared.entry.numbers named) records.old side.old tops.old range.old) declared.entry.signatures.now declared.entry.signature_sorts.now declared.entry.globals.now terms.old numbers.now) terms.old terms.new records.new side.new tops.new range.new result }
{
    let lent = lent_by(declared.numbers, call.given);
    let counts = counts_by(declared.numbers, named);
    let laid = call_cells(call);
    let arguments = part(numbers, call.start, call.given);
    let tables = Tables {
        lent,
        signatures: declared.signatures,
        signature_sorts: declared.signature_sorts,
        globals: declared.globals,
        calls: &laid,
        arguments,
    };
    match way {
        Way::Query => add_query(tables, counts, terms, records, side, tops, range),
        Way::Action => add_actions(tables, counts, terms, records, side, tops, range),
        // The variable of a typed local is its call's x.
        Way::Local => assign_local_var_type(
            counts, call.x, sort, call.place, terms, side, records, tops, range,
        ),
        Way::Silent => Added {
            number: 0,
            head: 0,
            place: 0,
            counts,
        },
    }
}
