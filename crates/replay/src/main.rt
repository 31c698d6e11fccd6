// Replays the fixed lists and prints each answer with all that a call may write. Standard input is lists of lines, each list
// behind a line of its own that names its kind: `problems` go through `solve`, `calls` through the generators, `bodies` through
// `grounded_check`, `outcomes` (what solving left) through `to_type_error` and `of_outcome`. A list's lines are decimal numbers
// parted by one space; the module of the kind says which. A line that begins with '#' and an empty line are skipped. A line
// that can't be read, or is too long, ends the program with a message.
#![tactic(auto)]

mod body;
mod buffers;
mod call;
mod kind;
mod outcome;
mod problem;

use kind::Kind;
use replay_io::input::{END, HASH, Input, LINE_FEED};
use replay_io::output::Output;
use std::ops::ControlFlow;

// the numbers at the head of a call, how many cells each of its ten lists has, and those:
// 13 + 10 + 2570 + 2049 + 257 + 516 + 4112 + 2050 + 514 + 518 + 2056 + 2049
const LINE_CELLS: usize = 16714;

// One line of a list, and its answer, if it has one.
fn answer(input: &mut Input, kind: Option<Kind>, output: &mut Output) -> Option<()> {
    let mut cells = [0; LINE_CELLS];
    let line = input.line(&mut cells);
    kind?.put_answer(line, output)
}

// One line: a comment, an empty line, a kind, or a line of a list. It breaks at the end, and at a line that can't be read.
fn step(input: &mut Input, kind: &mut Option<Kind>, output: &mut Output) -> ControlFlow<()> {
    match input.at_hand {
        END => return ControlFlow::Break(()),
        Some(HASH | LINE_FEED) => input.skip_line(),
        Some(byte) => {
            if let Ok(named) = Kind::try_from(byte) {
                input.skip_line();
                named.put_name(output);
                *kind = Some(named);
            } else if answer(input, *kind, output).is_none() {
                output.put_unread();
                return ControlFlow::Break(());
            }
        }
    }
    ControlFlow::Continue(())
}

fn main(rt: HostRuntime) {
    let mut input = Input::new(rt.stdin());
    let mut output = Output::new(rt.stdout());
    let mut kind = None;
    // no run uses these up
    for _ in 0..u64::MAX {
        if step(&mut input, &mut kind, &mut output).is_break() {
            break;
        }
    }
    output.finish();
}
