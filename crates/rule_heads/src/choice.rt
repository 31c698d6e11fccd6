// The constraints of an atom or an action as records, side-list cells and top-level entries.
ghost use Rattle.std.specs.Prelude.{ℕ, ◌+◌, ◌≤◌, List, map, ◌++◌, ◌∷◌, []};
ghost use Rattle.rule_cells.specs.Put.{most_number, Record, eq};
ghost use Rattle.rule_signatures.specs.Gives.{fixed};
ghost use Rattle.rule_signatures.specs.Laid.{Laid};
ghost use Rattle.rule_heads.specs.Alternatives.{given_by, head_gives, plain, choice};
ghost use Rattle.rule_heads.specs.Written.{Ands, Xored, Plain, Written, Room};

use crate::{Cursor, Found, MAX_FOUND};
use definition::Kind;
use rule_cells::{put, put_all, put_numbers, put_record};
use rule_signatures::given::{laid, laid_fixed};
use rule_signatures::table::read_signature;
use rule_signatures::{Scope, Statement};

// Each alternative's constraints and its And. The Ands' numbers go to a list of their own.
fn lay_ands(
    found: Found,
    statement: Statement,
    from: Cursor,
    records: &mut [usize],
    side: &mut [usize],
    ands: &mut [usize],
) -> Cursor
    requires { Room 22049 from found.numbers.now statement.args.now }
    ensures { Ands statement.entry.origin from (map (given_by found.entry.signatures.now found.entry.signature_sorts.now statement.entry.args.now) found.entry.numbers.now) records.old records.new side.old side.new ands.old ands.new result }
{
    let Found {
        signatures,
        signature_sorts,
        numbers,
    } = found;
    let mut at = from;
    for (i, number) in numbers.iter().enumerate() {
        let signature = read_signature(signatures, *number);
        let count = laid(signature, signature_sorts, statement, at.records, records);
        let end = at.records + count;
        put_record(
            records,
            end,
            Kind::And.number(),
            at.side,
            count,
            statement.origin,
        );
        put_numbers(side, at.side, at.records, count);
        put(ands, i, end);
        at.side += count;
        at.records = end + 1;
    }
    at
}

// The Ands, then their Xor.
fn lay_xor(
    found: Found,
    statement: Statement,
    from: Cursor,
    records: &mut [usize],
    side: &mut [usize],
) -> Cursor
    requires { Room 22049 from found.numbers.now statement.args.now }
    ensures { Xored statement.entry.origin from (map (given_by found.entry.signatures.now found.entry.signature_sorts.now statement.entry.args.now) found.entry.numbers.now) records.old records.new side.old side.new result }
{
    let count = found.numbers.len();
    let mut ands = [0usize; MAX_FOUND];
    let after = lay_ands(found, statement, from, records, side, &mut ands);
    let Cursor {
        records: n,
        side: m,
        ..
    } = after;
    put_record(records, n, Kind::Xor.number(), m, count, statement.origin);
    put_all(side, m, &ands[..count]);
    Cursor {
        records: n + 1,
        side: m + count,
        ..from
    }
}

// So many constraints stand by themselves: each is a top-level entry.
fn end_plain(from: Cursor, count: usize, tops: &mut [usize]) -> Cursor
    requires { (from.records ≤ most_number) × (from.tops ≤ most_number) × (count ≤ most_number) }
    ensures { Plain from count tops.old tops.new result }
{
    put_numbers(tops, from.tops, from.records, count);
    Cursor {
        records: from.records + count,
        tops: from.tops + count,
        ..from
    }
}

// Literals and globals alone.
pub fn write_nothing(
    scope: Scope,
    statement: Statement,
    from: Cursor,
    records: &mut [usize],
    tops: &mut [usize],
) -> Cursor
    requires { Room 20000 from [] statement.args.now }
    ensures { Written statement.entry.origin from (plain (fixed scope.entry.terms.now scope.entry.globals.now statement.entry.args.now)) records.old records.new [] [] tops.old tops.new result }
{
    let count = laid_fixed(scope, statement, from.records, records);
    end_plain(from, count, tops)
}

// Literals and globals, then Eq(x, y).
// Still apart: the lists that are written. A struct of them is to be tried (docs/DESIGN-PASS.md).
pub fn write_equality(
    scope: Scope,
    statement: Statement,
    x: usize,
    y: usize,
    from: Cursor,
    records: &mut [usize],
    tops: &mut [usize],
) -> Cursor
    requires { Room 20000 from [] statement.args.now }
    ensures { Written statement.entry.origin from (plain (fixed scope.entry.terms.now scope.entry.globals.now statement.entry.args.now ++ eq x y ∷ [])) records.old records.new [] [] tops.old tops.new result }
{
    let count = laid_fixed(scope, statement, from.records, records);
    let end = from.records + count;
    put_record(records, end, Kind::Eq.number(), x, y, statement.origin);
    end_plain(from, count + 1, tops)
}

// Behind `count` constraints that stand by themselves, an Xor of several alternatives.
// Still apart: the lists that are written, as in `write_equality`.
fn write_choice(
    found: Found,
    statement: Statement,
    from: Cursor,
    count: usize,
    records: &mut [usize],
    side: &mut [usize],
    tops: &mut [usize],
) -> Cursor
    requires room { Room 20000 from found.numbers.now statement.args.now }
    requires count_bound { count ≤ 2049 }
    ensures { (before : List Record) (first : List ℕ) → Laid statement.entry.origin first records.old from.records before count → Written statement.entry.origin from (choice before (map (given_by found.entry.signatures.now found.entry.signature_sorts.now statement.entry.args.now) found.entry.numbers.now)) first records.new side.old side.new tops.old tops.new result }
{
    let start = Cursor {
        records: from.records + count,
        ..from
    };
    let after = lay_xor(found, statement, start, records, side);
    put_numbers(tops, from.tops, from.records, count);
    put(tops, from.tops + count, after.records - 1);
    Cursor {
        tops: from.tops + (count + 1),
        ..after
    }
}

// Literals and globals, then the constraints of a head: those of one alternative, or an Xor of several.
// Still apart: the lists that are written, as in `write_equality`.
pub fn write_application(
    found: Found,
    scope: Scope,
    statement: Statement,
    from: Cursor,
    records: &mut [usize],
    side: &mut [usize],
    tops: &mut [usize],
) -> Cursor
    requires { Room 20000 from found.numbers.now statement.args.now }
    ensures { Written statement.entry.origin from (head_gives found.entry.signatures.now found.entry.signature_sorts.now statement.entry.args.now (fixed scope.entry.terms.now scope.entry.globals.now statement.entry.args.now) found.entry.numbers.now) records.old records.new side.old side.new tops.old tops.new result }
{
    let count = laid_fixed(scope, statement, from.records, records);
    match found.numbers {
        [] => end_plain(from, count, tops),
        [number] => {
            let signature = read_signature(found.signatures, *number);
            let n = from.records + count;
            let more = laid(signature, found.signature_sorts, statement, n, records);
            end_plain(from, count + more, tops)
        }
        _ => write_choice(found, statement, from, count, records, side, tops),
    }
}
