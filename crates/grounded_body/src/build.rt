// The problem that a body makes, in lists that are lent for it.
ghost use Rattle.grounded_body.specs.Parts.{seen, Buffers, Built, Accepted};

use crate::Body;
use definition::Counts;

// Fills the four lists, and answers how much of each is used.
// Stays: that the body is accepted is asked by clauses, since a type that holds it would ask more of this function's callers.
pub fn build(
    body: Body,
    records: &mut [usize],
    side: &mut [usize],
    tops: &mut [usize],
    range: &mut [usize],
) -> Counts
    requires accepted { Accepted (seen body) }
    requires buffers { Buffers records.old side.old tops.old range.old }
    ensures { Built (seen body.entry) result records.new side.new tops.new range.new }
{
    let laid = crate::lay::lay(body, records, side, tops);
    let entries = crate::range::fill(body, range);
    Counts {
        records: laid.records,
        side: laid.side,
        tops: laid.tops,
        range: entries,
        terms: body.counts.terms,
        sorts: 1,
    }
}
