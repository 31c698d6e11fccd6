// The updates of records that have no children.
ghost use Rattle.std.specs.Prelude.{ℕ, ◌+◌, ◌≤◌, List, ◌≡◌, length};
ghost use Rattle.definition.specs.Sizes.{entry_cells};
ghost use Rattle.definition.specs.Problem.{eq, assign, impossible};
ghost use Rattle.solve_leaves.specs.Leaf.{LeafSays, LeafAsks, is_leaf, leaf_of};

use super::answer::{Answer, ConstraintError};
use super::frame::{Entry, put_entry};
use definition::Kind;

// Stay numbers: tried with `Kind::try_from`, which takes 4 more instructions for each Eq (chains: 12 in 100 more).
const EQ: usize = Kind::Eq as usize;

const ASSIGN: usize = Kind::Assign as usize;

const IMPOSSIBLE: usize = Kind::Impossible as usize;

// Stay: the numbers of an entry, since the error list crosses to C as numbers.
const INCONSISTENT_CONSTRAINT: usize = 30;

const IMPOSSIBLE_CASE_IDENTIFIED: usize = 33;

// Eq(x, y)
pub fn update_eq(
    number: usize,
    place: usize,
    x: usize,
    y: usize,
    work: &mut [usize],
    errors: &mut [usize],
) -> Answer
    requires { LeafAsks 0 x y work.old errors.old }
    ensures { LeafSays result (eq x y) number place work.old work.new errors.new }
{
    let left = work[x];
    let right = work[y];
    if left == 0 {
        if right == 0 {
            return Ok(false);
        }
        work[x] = right;
        return Ok(true);
    }
    if right == 0 {
        work[y] = left;
        return Ok(true);
    }
    if left == right {
        return Ok(false);
    }
    put_entry(
        errors,
        Entry {
            number: INCONSISTENT_CONSTRAINT,
            source: number,
            place,
            first: x,
            second: left - 1,
            third: right - 1,
        },
    );
    Err(ConstraintError { entries: 1 })
}

// Assign(x, sort)
pub fn update_assign(
    number: usize,
    place: usize,
    x: usize,
    sort: usize,
    work: &mut [usize],
    errors: &mut [usize],
) -> Answer
    requires { LeafAsks 1 x sort work.old errors.old }
    ensures { LeafSays result (assign x sort) number place work.old work.new errors.new }
{
    let held = work[x];
    if held == 0 {
        work[x] = sort + 1;
        return Ok(true);
    }
    let actual = held - 1;
    if actual == sort {
        return Ok(false);
    }
    put_entry(
        errors,
        Entry {
            number: INCONSISTENT_CONSTRAINT,
            source: number,
            place,
            first: x,
            second: sort,
            third: actual,
        },
    );
    Err(ConstraintError { entries: 1 })
}

// Impossible(head, expected)
pub fn update_impossible(
    number: usize,
    place: usize,
    head: usize,
    expected: usize,
    errors: &mut [usize],
) -> Answer
    requires { entry_cells ≤ length errors.old }
    ensures { (work : List ℕ) → LeafSays result (impossible head expected) number place work work errors.new }
{
    put_entry(
        errors,
        Entry {
            number: IMPOSSIBLE_CASE_IDENTIFIED,
            source: number,
            place,
            first: head,
            second: expected,
            third: 0,
        },
    );
    Err(ConstraintError { entries: 1 })
}

// Whether a record of that kind has no children.
pub fn is_leaf(kind: usize) -> bool
    ensures { result ≡ is_leaf kind }
{
    matches!(kind, EQ | ASSIGN | IMPOSSIBLE)
}

// The update of a record without children, from its cells.
pub fn update_leaf(
    kind: usize,
    number: usize,
    place: usize,
    first: usize,
    second: usize,
    work: &mut [usize],
    errors: &mut [usize],
) -> Answer
    requires { LeafAsks kind first second work.old errors.old }
    ensures { LeafSays result (leaf_of kind first second) number place work.old work.new errors.new }
{
    match kind {
        EQ => update_eq(number, place, first, second, work, errors),
        ASSIGN => update_assign(number, place, first, second, work, errors),
        _ => update_impossible(number, place, first, second, errors),
    }
}
