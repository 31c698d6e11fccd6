// What a program in C or Rust links: the entry points on numbers and slices, each the function behind it and nothing else.
// An enum does not cross: a type error is its number and its values.
// Stays: names, parameters and structs are the C interface; so two entry points may be alike and have many parameters.
#![tactic(auto)]

ghost use Rattle.std.specs.Prelude.{◌≡◌, true, false, length};
ghost use Rattle.solve_records.specs.Lent.{lent as problem_of};
ghost use Rattle.solver.specs.Entry.{Solved};
ghost use Rattle.rule_lent.specs.Lend.{lending};
ghost use Rattle.rule_calls.specs.Exit.{local_verdict, call_verdict};
ghost use Rattle.rule_calls.specs.Left.{LocalLeft, CallLeft, ActionsLeft};
ghost use Rattle.grounded_body.specs.Parts.{body};
ghost use Rattle.grounded.specs.Entry.{Checked};
ghost use Rattle.type_errors.specs.TypeErrors.{type_error_at, type_error_of_outcome, told};
ghost use Rattle.text_definition.specs.Rows.{sorts_text};
ghost use Rattle.out_text.specs.Front.{at_front};
ghost use Rattle.sortlib.specs.Told.{in_order, told_of};

use definition::{Counts, Outcome, Problem, Refusal};
use grounded_body::{Body, BodyCounts};
use rule_calls::Added;
use rule_lent::{Lent, Tables};
use type_errors::TypeError;

// A type error: 30 to 33, 0 for none, 1 or 2 for a refusal; and its values. What has no meaning is 0.
#[repr(C)]
#[derive(Clone, Copy)]
pub struct Told {
    pub number: usize,
    pub first: usize,
    pub second: usize,
    pub third: usize,
}

// `solver::solve`.
#[unsafe(no_mangle)]
pub extern "C" fn sortlib_solve(
    counts: Counts,
    records: &[usize],
    side: &[usize],
    tops: &[usize],
    range: &[usize],
    work: &mut [usize],
    sort_list: &mut [usize],
    errors: &mut [usize],
) -> Outcome
    ensures { Solved (problem_of counts records.now side.now tops.now range.now) work.old sort_list.old errors.old result work.new sort_list.new errors.new }
{
    let problem = Problem {
        counts,
        records,
        side,
        tops,
        range,
    };
    solver::solve(problem, work, sort_list, errors)
}

fn in_order(number: usize, first: usize, second: usize, third: usize) -> Told
    ensures { result ≡ in_order number first second third }
{
    Told {
        number,
        first,
        second,
        third,
    }
}

// A type error, none, or a refusal.
impl From<Result<Option<TypeError>, Refusal>> for Told {
    ghost from_gives = { λ answer told. told ≡ told_of answer };

    fn from(answer: Result<Option<TypeError>, Refusal>) -> Told {
        match answer {
            Ok(Some(TypeError::Mismatch(term, expected, actual))) => {
                in_order(30, term, expected, actual)
            }
            Ok(Some(TypeError::InferenceFailure(term))) => in_order(31, term, 0, 0),
            Ok(Some(TypeError::AllAlternativeFailed(count))) => in_order(32, count, 0, 0),
            Ok(Some(TypeError::Arity(head, expected))) => in_order(33, head, expected, 0),
            Ok(None) => in_order(0, 0, 0, 0),
            Err(refusal) => in_order(refusal.number(), 0, 0, 0),
        }
    }
}

// `type_errors::to_type_error`.
#[unsafe(no_mangle)]
pub extern "C" fn sortlib_type_error(records: usize, entry: usize, errors: &[usize]) -> Told
    ensures { result ≡ told_of (type_error_at errors.now records entry) }
{
    Told::from(type_errors::to_type_error(errors, records, entry))
}

// `type_errors::of_outcome`.
#[unsafe(no_mangle)]
pub extern "C" fn sortlib_outcome_type_error(outcome: Outcome) -> Told
    ensures { result ≡ told_of (told (type_error_of_outcome outcome)) }
{
    Told::from(type_errors::of_outcome(outcome).map(Some))
}

// `rule_calls::add_query`.
#[unsafe(no_mangle)]
pub extern "C" fn sortlib_add_query(
    lent: Lent,
    counts: Counts,
    signatures: &[usize],
    signature_sorts: &[usize],
    globals: &[usize],
    terms: &[usize],
    calls: &[usize],
    arguments: &[usize],
    records: &mut [usize],
    side: &mut [usize],
    tops: &mut [usize],
    range: &mut [usize],
) -> Added
    ensures { CallLeft (problem_of counts records.old side.old tops.old range.old) (call_verdict (lending true lent (problem_of counts records.old side.old tops.old range.old) signatures.now signature_sorts.now globals.now terms.now calls.now arguments.now)) records.new side.new tops.new range.new result }
{
    let tables = Tables {
        lent,
        signatures,
        signature_sorts,
        globals,
        calls,
        arguments,
    };
    rule_calls::add_query(tables, counts, terms, records, side, tops, range)
}

// `rule_calls::add_actions`.
#[unsafe(no_mangle)]
pub extern "C" fn sortlib_add_actions(
    lent: Lent,
    counts: Counts,
    signatures: &[usize],
    signature_sorts: &[usize],
    globals: &[usize],
    terms: &mut [usize],
    calls: &[usize],
    arguments: &[usize],
    records: &mut [usize],
    side: &mut [usize],
    tops: &mut [usize],
    range: &mut [usize],
) -> Added
    ensures { ActionsLeft (problem_of counts records.old side.old tops.old range.old) (call_verdict (lending false lent (problem_of counts records.old side.old tops.old range.old) signatures.now signature_sorts.now globals.now terms.old calls.now arguments.now)) terms.old terms.new records.new side.new tops.new range.new result }
{
    let tables = Tables {
        lent,
        signatures,
        signature_sorts,
        globals,
        calls,
        arguments,
    };
    rule_calls::add_actions(tables, counts, terms, records, side, tops, range)
}

// `rule_calls::assign_local_var_type`.
#[unsafe(no_mangle)]
pub extern "C" fn sortlib_assign_local(
    counts: Counts,
    term: usize,
    sort: usize,
    place: usize,
    terms: &[usize],
    side: &[usize],
    records: &mut [usize],
    tops: &mut [usize],
    range: &mut [usize],
) -> Added
    ensures { LocalLeft (problem_of counts records.old side.now tops.old range.old) (local_verdict (problem_of counts records.old side.now tops.old range.old) terms.now term sort place) records.new tops.new range.new result }
{
    rule_calls::assign_local_var_type(counts, term, sort, place, terms, side, records, tops, range)
}

// `grounded::grounded_check`.
#[unsafe(no_mangle)]
pub extern "C" fn sortlib_grounded_check(
    counts: BodyCounts,
    place: usize,
    atoms: &[usize],
    arguments: &[usize],
    terms: &[usize],
    work: &mut [usize],
    sort_list: &mut [usize],
    errors: &mut [usize],
) -> Outcome
    ensures { Checked (body counts place atoms.now arguments.now terms.now) work.old sort_list.old errors.old result work.new sort_list.new errors.new }
{
    let body = Body {
        counts,
        place,
        atoms,
        arguments,
        terms,
    };
    grounded::grounded_check(body, work, sort_list, errors)
}

// `out_text::put_text`.
#[unsafe(no_mangle)]
pub extern "C" fn sortlib_text(text: &[u8], out: &mut [u8]) -> usize
    ensures value { result ≡ length (sorts_text text.now) }
    ensures out_after { out.new ≡ at_front (sorts_text text.now) out.old }
{
    out_text::put_text(text, out)
}
