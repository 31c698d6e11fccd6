// All lines of a text in order, and how the text ends.
#![tactic(auto)]

ghost use Rattle.std.specs.Prelude.{◌≡◌};
ghost use Rattle.text_definition.specs.Run.{text_end};
ghost use Rattle.text_definition.specs.Store.{Within, end_from, exit_of};
ghost use Rattle.text_lines.specs.Lists.{store_in};
ghost use Rattle.text_lines.specs.Ending.{whole};

use definition::Refusal;
use ending::{finish, refused_by};
use run::{Refused, read_lines};
use text_definition::Ended;

mod ending;
mod line;
mod run;

// The longest input.
const MAX_BYTES: usize = 32768;

// The lists that the output is put from, of the largest sizes.
#[derive(Drop)]
pub struct Printed {
    pub sort_names: [usize; 512],
    pub head_names: [usize; 512],
    pub term_names: [usize; 512],
    pub sort_list: [usize; 256],
    pub errors: [usize; 4096],
}

// The other lists that reading a text needs, of the largest sizes.
#[derive(Drop)]
pub struct Lists {
    pub global_names: [usize; 512],
    pub signatures: [usize; 2560],
    pub signature_sorts: [usize; 2048],
    pub globals: [usize; 256],
    pub terms: [usize; 512],
    pub records: [usize; 4096],
    pub side: [usize; 2048],
    pub tops: [usize; 512],
    pub range: [usize; 512],
    pub words: [usize; 65538],
    pub numbers: [usize; 2051],
    pub work: [usize; 13824],
}

// Reads a text to its end, or to the first line that is refused, and solves. What the lists hold at entry is no matter.
pub fn read_text(text: &[u8], printed: &mut Printed, lists: &mut Lists) -> Ended
    ensures errors_after { end_from text.now result (store_in printed.new lists.new) (exit_of result lists.new.work printed.new.sort_list printed.new.errors) ≡ text_end text.now }
    ensures within { Within result.numbers }
    ensures value { result ≡ whole result }
{
    if MAX_BYTES < text.len() {
        return refused_by(Refused {
            number: Refusal::TooLong.number(),
            place: 0,
        });
    }
    lists.signatures.fill(0);
    lists.signature_sorts.fill(0);
    lists.globals.fill(0);
    lists.terms.fill(0);
    lists.records.fill(0);
    lists.side.fill(0);
    lists.tops.fill(0);
    lists.range.fill(0);
    let lines = read_lines(text, printed, lists);
    finish(lines, printed, lists)
}
