// Refusals 5 and 6: the room that the work room, the sort list and the error list have.
ghost use Rattle.std.specs.Prelude.{◌≤◌, ◌≡◌};
ghost use Rattle.definition.specs.Sizes.{max_terms, max_records};
ghost use Rattle.definition.specs.Numbers.{refused};
ghost use Rattle.definition.specs.Refusal.{room_refusal};

use definition::Refusal;

// The work room has this many cells for each term and each record.
const ROOM_FRAMES: usize = 18;

// An error entry is 8 cells.
const ENTRY_CELLS: usize = 8;

// 5: too small a work room. 6: a sort list shorter than the terms, or an error list shorter than the records.
pub fn room_refusal(
    terms: usize,
    records: usize,
    work: usize,
    sort_list: usize,
    errors: usize,
) -> Result<(), Refusal>
    requires { (terms ≤ max_terms) × (records ≤ max_records) }
    ensures { refused result ≡ room_refusal terms records work sort_list errors }
{
    if work < ROOM_FRAMES * (terms + records) {
        return Err(Refusal::SmallWork);
    }
    if sort_list < terms || errors < records * ENTRY_CELLS {
        return Err(Refusal::ShortList);
    }
    Ok(())
}
