// What an entry of the error list is as a type error.
#![tactic(auto)]

ghost use Rattle.std.specs.Prelude.{◌≡◌};
ghost use Rattle.type_errors.specs.TypeErrors.{type_error_of, type_error_at, type_error_of_outcome, entry};

use definition::{Outcome, Refusal};

// The cases of the module's TypeError that solving gives.
#[derive(Clone, Copy, Debug, PartialEq, Eq)]
pub enum TypeError {
    // the term, the sort expected, the actual sort
    Mismatch(usize, usize, usize),
    // the term
    InferenceFailure(usize),
    // how many alternatives failed; their entries follow
    AllAlternativeFailed(usize),
    // the head, how many arguments it expects, its output not counted
    Arity(usize, usize),
}

const MAX_RECORDS: usize = 512;

const ENTRY_CELLS: usize = 8;

const MAX_EXPECTED: usize = 9999;

// Stays: the numbers of an entry and of an Outcome, since both cross to C as numbers.
const UNCONSTRAINED_VAR: usize = 31;

// What an entry with this number and these values is.
#[tactic(auto, unfolding(crate::specs::TypeErrors::type_error_of))]
fn of_entry(
    number: usize,
    first: usize,
    second: usize,
    third: usize,
) -> Result<Option<TypeError>, Refusal>
    ensures { result ≡ type_error_of (entry number first second third) }
{
    match number {
        0 => Ok(None),
        30 => Ok(Some(TypeError::Mismatch(first, second, third))),
        32 => Ok(Some(TypeError::AllAlternativeFailed(first))),
        33 if second >= 1 && second <= MAX_EXPECTED => Ok(Some(TypeError::Arity(
            first,
            second - 1,
        ))),
        _ => Err(Refusal::OutOfRange),
    }
}

// What the numbered entry is in the error list that solve left for so many records: none past the error's end.
#[tactic(auto, unfolding(crate::specs::TypeErrors::type_error_at))]
pub fn to_type_error(
    errors: &[usize],
    records: usize,
    entry: usize,
) -> Result<Option<TypeError>, Refusal>
    ensures { result ≡ type_error_at errors.now records entry }
{
    if records > MAX_RECORDS || records * ENTRY_CELLS > errors.len() || entry >= records {
        return Err(Refusal::TooMany);
    }
    let at = entry * ENTRY_CELLS;
    of_entry(errors[at], errors[at + 3], errors[at + 4], errors[at + 5])
}

// 31 stands in solve's outcome alone.
#[tactic(auto, unfolding(crate::specs::TypeErrors::type_error_of_outcome))]
pub fn of_outcome(outcome: Outcome) -> Result<TypeError, Refusal>
    ensures { result ≡ type_error_of_outcome outcome }
{
    if outcome.number == UNCONSTRAINED_VAR {
        Ok(TypeError::InferenceFailure(outcome.term))
    } else {
        Err(Refusal::OutOfRange)
    }
}
