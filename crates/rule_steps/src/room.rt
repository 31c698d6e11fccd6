// Refusal 10: whether what is added still fits.
ghost use Rattle.std.specs.Prelude.{◌≡◌};
ghost use Rattle.rule_steps.specs.Given.{room_for};

use crate::Lengths;
use definition::Counts;
use rule_cells::RECORD_CELLS;
use rule_ranges::RANGE_CELLS;
use rule_signatures::TERM_CELLS;
use solve_records::cells;

// The largest counts.
const MAX_RECORDS: usize = 512;

const MAX_SIDE: usize = 2048;

const MAX_TOPS: usize = 512;

const MAX_RANGE: usize = 256;

const MAX_TERMS: usize = 256;

// No count passes its largest size or its list.
#[tactic(auto, using(crate::proofs::Rooms::room_divided))]
pub fn room_for(lengths: Lengths, counts: Counts) -> bool
    ensures { result ≡ room_for lengths counts }
{
    cells::within(counts.records, MAX_RECORDS, lengths.records / RECORD_CELLS)
        && cells::within(counts.side, MAX_SIDE, lengths.side)
        && cells::within(counts.tops, MAX_TOPS, lengths.tops)
        && cells::within(counts.range, MAX_RANGE, lengths.range / RANGE_CELLS)
        && cells::within(counts.terms, MAX_TERMS, lengths.terms / TERM_CELLS)
}
