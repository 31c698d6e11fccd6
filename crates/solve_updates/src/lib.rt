// Updates of records: And, Xor and Implies go down to their children, one level less deep. What recurses is the update of
// a list of records: one without children is updated within its loop.
#![tactic(auto)]

ghost use Rattle.std.specs.Prelude.{◌≡◌, [], ◌∷◌, ℕ, suc, ◌<◌, ◌≤◌, length};
ghost use Rattle.definition.specs.Lists.{Among};
ghost use Rattle.definition.specs.Problem.{node, place_of, xor, implies};
ghost use Rattle.definition.specs.Update.{upd, each, trials, nothing, step};
ghost use Rattle.solve_leaves.specs.Room.{frame_cells, frame_of, room, bare};
ghost use Rattle.solve_leaves.specs.Says.{Says, Shows, Ready};

use definition::{Counts, Kind};
use solve_leaves::answer::{Answer, Tried};
use solve_leaves::firing::{fire, fired, waits};
use solve_leaves::frame::{ENTRY_CELLS, copy_cells};
use solve_leaves::leaf::{is_leaf, update_leaf};
use solve_leaves::trial::{entries_of, seen, settle, successes_of, trial_frame};
use solve_records::read_record;

// Stay numbers: tried with `rec.kind()`, see solve_leaves/src/leaf.rt.
const AND: usize = Kind::And as usize;

const XOR: usize = Kind::Xor as usize;

// Counts, records and side list stand apart in what follows: tried as one struct, which costs a solve of chains of Eq 18
// instructions in 100 by value and 16 of time in 100 by reference (each update zeroes a copy, or reads the lists anew).

// And(children): one pass over the children in order. The first error ends it.
#[cycle(updates)]
pub fn update_and(
    counts: Counts,
    records: &[usize],
    side: &[usize],
    children: &[usize],
    depth: usize,
    work: &mut [usize],
    errors: &mut [usize],
) -> Answer
    requires { Ready (bare counts records.now side.now) depth children.now work.old errors.old }
    ensures { Says result (each (upd (bare counts records.now side.now) depth) children.now (frame_of counts work.old)) counts work.new errors.new }
{
    let mut changed = false;
    for child in children {
        changed |= update(counts, records, side, *child, depth, work, errors)?;
    }
    Ok(changed)
}

// The trials of an Xor: each child from the frame at entry, which stays at the front of the room. Behind it a child is
// tried until one succeeds, which stays there; the others are tried behind that. The second success ends the trying.
#[cycle(updates)]
fn try_children(
    counts: Counts,
    records: &[usize],
    side: &[usize],
    children: &[usize],
    depth: usize,
    work: &mut [usize],
    errors: &mut [usize],
) -> Tried
    requires { Ready (bare counts records.now side.now) depth children.now work.old errors.old × (room (frame_cells counts) (suc depth) ≤ length work.old) }
    ensures { Shows result (trials (upd (bare counts records.now side.now) depth) (frame_of counts work.old) (nothing []) children.now) (frame_of counts work.old) counts work.new errors.new }
{
    let cells = counts.terms + counts.records;
    let mut tried = Tried::Nothing(0);
    let mut found = 0;
    let mut i = 0;
    // Stays: a loop that breaks with its count (docs/DECISIONS.md, "Where the named forms of document 01 stand").
    let successes = loop {
        if found == 2 {
            break found;
        }
        if i == children.len() {
            break found;
        }
        let child = children[i];
        i += 1;
        let trial = trial_frame(tried, cells);
        let used = entries_of(tried) * ENTRY_CELLS;
        copy_cells(work, 0, trial, cells);
        let behind = &mut work[trial..];
        let more = &mut errors[used..];
        let answer = update_one(counts, records, side, child, depth, behind, more);
        tried = seen(tried, child, answer);
        found = successes_of(tried);
    };
    if successes != 1 {
        return tried;
    }
    copy_cells(work, cells, 0, cells);
    tried
}

// Xor(children): a narrowed one has one child left, which is updated in place.
#[cycle(updates)]
fn update_xor(
    counts: Counts,
    records: &[usize],
    side: &[usize],
    children: &[usize],
    number: usize,
    place: usize,
    depth: usize,
    work: &mut [usize],
    errors: &mut [usize],
) -> Answer
    requires ready { Ready (bare counts records.now side.now) (suc depth) (number ∷ []) work.old errors.old }
    requires number_value { (node (bare counts records.now side.now) number ≡ xor children.now) × (place_of (bare counts records.now side.now) number ≡ place) }
    ensures { Says result (step (upd (bare counts records.now side.now) depth) (bare counts records.now side.now) number (xor children.now) (frame_of counts work.old)) counts work.new errors.new }
{
    let terms = counts.terms;
    let state = work[terms + number];
    if state == 0 {
        let behind = &mut errors[ENTRY_CELLS..];
        let tried = try_children(counts, records, side, children, depth, work, behind);
        return settle(tried, terms, number, place, children.len(), work, errors);
    }
    let child = state - 1;
    let behind = &mut errors[ENTRY_CELLS..];
    let answer = update_one(counts, records, side, child, depth, work, behind);
    let tried = seen(Tried::Nothing(0), child, answer);
    settle(tried, terms, number, place, 1, work, errors)
}

// Implies(watched, child): once every watched term has a sort it fires for good, which is a change.
#[cycle(updates)]
fn update_implies(
    counts: Counts,
    records: &[usize],
    side: &[usize],
    watched: &[usize],
    child: usize,
    number: usize,
    depth: usize,
    work: &mut [usize],
    errors: &mut [usize],
) -> Answer
    requires ready { Ready (bare counts records.now side.now) (suc depth) (number ∷ []) work.old errors.old }
    requires number_value { node (bare counts records.now side.now) number ≡ implies watched.now child }
    requires by_index { (t : ℕ) → Among t watched.now → t < counts.terms }
    ensures { Says result (step (upd (bare counts records.now side.now) depth) (bare counts records.now side.now) number (implies watched.now child) (frame_of counts work.old)) counts work.new errors.new }
{
    let terms = counts.terms;
    let firing = fire(watched, terms + number, work);
    if waits(firing) {
        return Ok(false);
    }
    let answer = update_child(counts, records, side, child, depth, work, errors);
    fired(firing, answer)
}

// A list of one record: the way down to a child.
#[cycle(updates)]
fn update_one(
    counts: Counts,
    records: &[usize],
    side: &[usize],
    number: usize,
    depth: usize,
    work: &mut [usize],
    errors: &mut [usize],
) -> Answer
    requires { Ready (bare counts records.now side.now) depth (number ∷ []) work.old errors.old }
    ensures { Says result (upd (bare counts records.now side.now) depth number (frame_of counts work.old)) counts work.new errors.new }
{
    let one = [number];
    update_and(counts, records, side, &one, depth, work, errors)
}

// The same, but for a record without children, which needs no list.
#[cycle(updates)]
fn update_child(
    counts: Counts,
    records: &[usize],
    side: &[usize],
    number: usize,
    depth: usize,
    work: &mut [usize],
    errors: &mut [usize],
) -> Answer
    requires { Ready (bare counts records.now side.now) depth (number ∷ []) work.old errors.old }
    ensures { Says result (upd (bare counts records.now side.now) depth number (frame_of counts work.old)) counts work.new errors.new }
{
    let rec = read_record(records, number);
    if is_leaf(rec.kind) {
        return update_leaf(
            rec.kind, number, rec.place, rec.first, rec.second, work, errors,
        );
    }
    update_one(counts, records, side, number, depth, work, errors)
}

// The update of the record with that number, at most `depth` levels deep, on the frame at the front of the room.
#[cycle(updates)]
fn update(
    counts: Counts,
    records: &[usize],
    side: &[usize],
    number: usize,
    depth: usize,
    work: &mut [usize],
    errors: &mut [usize],
) -> Answer
    requires { Ready (bare counts records.now side.now) depth (number ∷ []) work.old errors.old }
    ensures { Says result (upd (bare counts records.now side.now) depth number (frame_of counts work.old)) counts work.new errors.new }
{
    let rec = read_record(records, number);
    if is_leaf(rec.kind) {
        return update_leaf(
            rec.kind, number, rec.place, rec.first, rec.second, work, errors,
        );
    }
    let own = &side[rec.first..rec.first + rec.second];
    let low = depth - 1;
    match rec.kind {
        AND => update_and(counts, records, side, own, low, work, errors),
        XOR => update_xor(
            counts, records, side, own, number, rec.place, low, work, errors,
        ),
        _ => update_implies(
            counts, records, side, own, rec.third, number, low, work, errors,
        ),
    }
}
