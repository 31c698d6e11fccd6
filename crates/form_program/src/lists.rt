// A list of nine record structs, made here and lent to the check and to the readers: for callers that have no such list.
ghost use Rattle.std.specs.Prelude.{◌≡◌};
ghost use Rattle.definition.specs.Numbers.{refused};
ghost use Rattle.form_records.specs.Cells.{kind_at, place_at};
ghost use Rattle.form_records.specs.Left.{Checked};

use definition::{Counts, Refusal};
use form_records::{Record, check_records, kind_at, place_at};

pub fn check_nine(
    counts: Counts,
    records: [Record; 9],
    side: &[usize],
    tops: &[usize],
    range: &[usize],
    flat: &mut [usize],
) -> Result<(), Refusal>
    ensures { Checked counts records side.now tops.now range.now flat.old (refused result) flat.new }
{
    check_records(counts, &records, side, tops, range, flat)
}

pub fn kind_in_nine(records: [Record; 9], number: usize) -> usize
    ensures { result ≡ kind_at records number }
{
    kind_at(&records, number)
}

pub fn place_in_nine(records: [Record; 9], number: usize) -> usize
    ensures { result ≡ place_at records number }
{
    place_at(&records, number)
}
