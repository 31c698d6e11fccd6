// The constraints that arguments get, laid out as records from number n on. Each function answers how many they are.
ghost use Rattle.std.specs.Prelude.{ℕ, ◌+◌, ◌*◌, ◌-◌, ◌≤◌, ◌<◌, ◌≡◌, length, take, drop};
ghost use mathlib.Core.List.{map, zip_with, ◌∷◌, []};
ghost use Rattle.definition.specs.Numbers.{kind_number};
ghost use Rattle.definition.specs.Sizes.{record_cells};
ghost use Rattle.rule_cells.specs.Put.{most_number, Record, puts, as_cells, cells, lay, assign, impossible};
ghost use Rattle.rule_signatures.specs.Tables.{unbound};
ghost use Rattle.rule_signatures.specs.Gives.{any, alike, output as output_gives, exact, simple_gives, gives, empty, fixed};
ghost use Rattle.rule_signatures.specs.Laid.{Laid};

use crate::table::{is_unbound, known_sort};
use crate::{AllEqualTypeConstraint, Scope, Signature, SimpleTypeConstraint, Statement};
use definition::Kind;
use rule_cells::{Origin, cell, part, put_record};

// A term has a sort.
fn put_assign(records: &mut [usize], n: usize, term: usize, sort: usize, origin: Origin)
    requires { n ≤ most_number }
    ensures { records.new ≡ puts records.old (n * record_cells) (cells origin (assign term sort)) }
{
    put_record(records, n, Kind::Assign.number(), term, sort, origin);
}

// Each argument has its sort.
fn assign_each(statement: Statement, sorts: &[usize], n: usize, records: &mut [usize])
    requires args_bound { n + length statement.args.now ≤ most_number }
    requires args_len { length statement.args.now ≡ length sorts.now }
    ensures { records.new ≡ lay statement.entry.origin records.old n (zip_with assign statement.entry.args.now sorts.now) }
{
    for (i, term) in statement.args.iter().enumerate() {
        put_assign(records, n + i, *term, sorts[i], statement.origin);
    }
}

// A record of this kind for each argument, with the same second value. Answers how many they are.
fn lay_all(
    kind: Kind,
    statement: Statement,
    second: usize,
    n: usize,
    records: &mut [usize],
) -> usize
    requires { n + length statement.args.now ≤ most_number }
    ensures laid { (made : ℕ → Record) → ((a : ℕ) → as_cells statement.entry.origin (kind_number kind) a second ≡ cells statement.entry.origin (made a)) → records.new ≡ lay statement.entry.origin records.old n (map made statement.entry.args.now) }
    ensures count { result ≡ length statement.entry.args.now }
{
    let Statement { args, origin } = statement;
    for (i, term) in args.iter().enumerate() {
        put_record(records, n + i, kind.number(), *term, second, origin);
    }
    args.len()
}

// The arguments left are of the common sort, or each later one is like the first.
fn laid_alike(common: Option<usize>, statement: Statement, n: usize, records: &mut [usize]) -> usize
    requires { n + length statement.args.now ≤ most_number }
    ensures { Laid statement.entry.origin records.old records.new n (alike common statement.entry.args.now) result }
{
    if let Some(sort) = common {
        return lay_all(Kind::Assign, statement, sort, n, records);
    }
    let Some((first, args)) = statement.args.split_first() else {
        return 0;
    };
    let later = Statement { args, ..statement };
    lay_all(Kind::Eq, later, *first, n, records)
}

// The last argument has the output sort and drops out.
fn laid_output(
    signature: AllEqualTypeConstraint,
    statement: Statement,
    n: usize,
    records: &mut [usize],
) -> usize
    requires { n + length statement.args.now < most_number }
    ensures { Laid statement.entry.origin records.old records.new n (output_gives signature.common signature.output statement.entry.args.now) result }
{
    let Some(sort) = signature.output else {
        return laid_alike(signature.common, statement, n, records);
    };
    let Statement { args, origin } = statement;
    let left = args.len().saturating_sub(1);
    put_assign(records, n, cell(args, left), sort, origin);
    let rest = Statement {
        args: &args[..left],
        origin,
    };
    laid_alike(signature.common, rest, n + 1, records) + 1
}

// A wrong number of arguments.
fn laid_arity(
    head: usize,
    expected: usize,
    origin: Origin,
    n: usize,
    records: &mut [usize],
) -> usize
    requires { n ≤ most_number }
    ensures { Laid origin records.old records.new n (impossible head expected ∷ []) result }
{
    put_record(
        records,
        n,
        Kind::Impossible.number(),
        head,
        expected,
        origin,
    );
    1
}

fn laid_equal(
    signature: AllEqualTypeConstraint,
    statement: Statement,
    n: usize,
    records: &mut [usize],
) -> usize
    requires { n + length statement.args.now < most_number }
    ensures { Laid statement.entry.origin records.old records.new n (exact signature.head signature.length statement.entry.args.now (output_gives signature.common signature.output statement.entry.args.now)) result }
{
    match signature.length {
        Some(expected) if statement.args.len() != expected => {
            laid_arity(signature.head, expected, statement.origin, n, records)
        }
        _ => laid_output(signature, statement, n, records),
    }
}

fn laid_simple(
    signature: SimpleTypeConstraint,
    signature_sorts: &[usize],
    statement: Statement,
    n: usize,
    records: &mut [usize],
) -> usize
    requires { n + length statement.args.now < most_number }
    ensures { Laid statement.entry.origin records.old records.new n (simple_gives signature.head (take signature.count (drop signature.start signature_sorts.now)) statement.entry.args.now) result }
{
    let own = part(signature_sorts, signature.start, signature.count);
    if statement.args.len() == own.len() {
        assign_each(statement, own, n, records);
        return statement.args.len();
    }
    laid_arity(signature.head, own.len(), statement.origin, n, records)
}

// What a signature gives for the arguments.
pub fn laid(
    signature: Signature,
    signature_sorts: &[usize],
    statement: Statement,
    n: usize,
    records: &mut [usize],
) -> usize
    requires { n + length statement.args.now < most_number }
    ensures laid { Laid statement.entry.origin records.old records.new n (gives signature_sorts.now signature statement.entry.args.now) result }
    ensures upper_bound { result ≤ length statement.entry.args.now + 1 }
{
    match signature {
        Signature::Simple(s) => laid_simple(s, signature_sorts, statement, n, records),
        Signature::AllEqual(a) => laid_equal(a, statement, n, records),
    }
}

// An Assign for each literal or global among the arguments.
pub fn laid_fixed(scope: Scope, statement: Statement, n: usize, records: &mut [usize]) -> usize
    requires { n + length statement.args.now < most_number }
    ensures laid { Laid statement.entry.origin records.old records.new n (fixed scope.entry.terms.now scope.entry.globals.now statement.entry.args.now) result }
    ensures upper_bound { result ≤ length statement.entry.args.now }
{
    let mut count = 0;
    for term in statement.args {
        if let Some(sort) = known_sort(scope, *term) {
            put_assign(records, n + count, *term, sort, statement.origin);
            count += 1;
        }
    }
    count
}

// A global among the arguments has no sort.
pub fn some_unbound(scope: Scope, args: &[usize]) -> bool
    ensures { result ≡ any (unbound scope.entry.terms.now scope.entry.globals.now) args.now }
{
    args.iter().any(|term| is_unbound(scope, *term))
}

// A function or simple signature without sorts, or an exact length of 0.
pub fn is_empty(signature: Signature) -> bool
    ensures { result ≡ empty signature }
{
    match signature {
        Signature::Simple(s) => s.count == 0,
        Signature::AllEqual(a) => a.length == Some(0),
    }
}
