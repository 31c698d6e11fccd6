// Adding to the lent lists: a record's cells, numbers, and where they come from. Nothing is written past a list's end.
#![tactic(auto)]

ghost use Rattle.std.specs.Prelude.{◌+◌, ◌*◌, ◌≤◌, ◌<◌, ◌≡◌, length, get_or, set, take, drop, replicate};
ghost use Rattle.definition.specs.Sizes.{record_cells};
ghost use Rattle.definition.specs.Lists.{from};
ghost use Rattle.rule_cells.specs.Put.{most_number, puts, as_cells};
ghost use Rattle.rule_cells.specs.Field.{field_at};

// A record is 8 cells: kind, five values, place, rule.
pub const RECORD_CELLS: usize = 8;

// What every record of an atom or an action shares.
#[derive(Clone, Copy)]
pub struct Origin {
    pub place: usize,
}

// A cell is written, or nothing past the list's end.
pub fn put(list: &mut [usize], at: usize, value: usize)
    ensures { list.new ≡ set list.old at value }
{
    if at < list.len() {
        list[at] = value;
    }
}

// Every cell becomes 0.
pub fn clear(list: &mut [usize])
    ensures { list.new ≡ replicate (length list.old) 0 }
{
    list.fill(0);
}

// A list's numbers from `at` on.
// Stays: a loop. Tried: `copy_from_slice`, by which the library for C calls `memmove`, which it did not need.
pub fn put_all(list: &mut [usize], at: usize, values: &[usize])
    ensures { list.new ≡ puts list.old at values.now }
{
    if at < list.len() {
        for i in 0..values.len() {
            put(list, at + i, values[i]);
        }
    }
}

// The `count` numbers from `first` on.
pub fn put_numbers(list: &mut [usize], at: usize, first: usize, count: usize)
    requires { (at ≤ most_number) × (first ≤ most_number) × (count ≤ most_number) }
    ensures { list.new ≡ puts list.old at (from first count) }
{
    for i in 0..count {
        put(list, at + i, first + i);
    }
}

// The one function that writes a record.
pub fn put_record(
    records: &mut [usize],
    number: usize,
    kind: usize,
    first: usize,
    second: usize,
    origin: Origin,
)
    requires { number ≤ most_number }
    ensures { records.new ≡ puts records.old (number * record_cells) (as_cells origin kind first second) }
{
    let cells = [kind, first, second, 0, 0, 0, origin.place, 0];
    put_all(records, number * RECORD_CELLS, &cells);
}

// A cell of a list, 0 past its end.
pub fn cell(list: &[usize], at: usize) -> usize
    ensures { result ≡ get_or list.now at 0 }
{
    list.get(at).copied().unwrap_or(0)
}

// Cell `k` of entry `number` of a table whose entries have `width` cells each, 0 past its end.
pub fn field(table: &[usize], number: usize, width: usize, k: usize) -> usize
    requires { (k < width) × (width ≤ 16) }
    ensures { result ≡ get_or table.now (field_at number width k) 0 }
{
    if table.len() <= number {
        return 0;
    }
    cell(table, number * width + k)
}

// A part of a list, as much of it as there is.
pub fn part(list: &[usize], start: usize, count: usize) -> &[usize]
    ensures { result.now ≡ take count (drop start list.now) }
{
    let rest = list.get(start..).unwrap_or_default();
    rest.get(..count).unwrap_or(rest)
}
