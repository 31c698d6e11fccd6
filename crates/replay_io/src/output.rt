// Writing: bytes wait in a block until it is full.
ghost use Rattle.std.specs.Prelude.{◌≡◌, [], ◌∷◌, codes, decimal};
ghost use Rattle.replay_io.specs.Waits.{Puts, spaced, runs, named, answer_line};

use crate::input::LINE_FEED;
use arrayvec::ArrayVec;
use definition::Outcome;
use itoa::Buffer;
use std::io::{Stdout, Write};

// As many bytes are written at a time.
const BLOCK_BYTES: usize = 65536;

// Standard output, and what waits for it. It can't be let go but by `finish`.
pub struct Output {
    stdout: Stdout,
    waiting: ArrayVec<u8, BLOCK_BYTES>,
}

impl Output {
    pub fn new(stdout: Stdout) -> Output
        ensures { result.waiting.items ≡ [] }
    {
        Output {
            stdout,
            waiting: ArrayVec::new(),
        }
    }

    // Writes what waits.
    pub fn finish(mut self) {
        self.flush();
        let Output {
            stdout: _,
            waiting: _,
        } = self;
    }

    // Writes what waits. A write that fails is not told.
    pub fn flush(&mut self)
        ensures { self.new.waiting.items ≡ [] }
    {
        let _ = self.stdout.write_all(self.waiting.as_slice());
        self.waiting.clear();
    }

    pub fn put(&mut self, byte: u8)
        ensures { Puts self.old (byte ∷ []) self.new }
    {
        if self.waiting.is_full() {
            self.flush();
        }
        self.waiting.push(byte);
    }

    pub fn put_all(&mut self, text: &[u8])
        ensures { Puts self.old text.now self.new }
    {
        for byte in text {
            self.put(*byte);
        }
    }

    // What a program says before it ends at a line that can't be read, or that lends more than there is room for.
    pub fn put_unread(&mut self)
        ensures { Puts self.old (codes "a line can't be read\n") self.new }
    {
        self.put_all(b"a line can't be read\n");
    }

    pub fn put_number(&mut self, number: usize)
        ensures { Puts self.old (decimal number) self.new }
    {
        let mut text = Buffer::new();
        self.put_all(text.format(number).as_bytes());
    }

    // A buffer's cells as runs of a value and how often it stands there.
    pub fn put_runs(&mut self, cells: &[usize])
        ensures { Puts self.old (runs cells.now) self.new }
    {
        for run in cells.chunk_by(|a, b| a == b) {
            if let Some(value) = run.first() {
                self.put(b' ');
                self.put_number(*value);
                self.put(b'x');
                self.put_number(run.len());
            }
        }
    }

    // Each number after a space.
    pub fn put_spaced(&mut self, numbers: &[usize])
        ensures { Puts self.old (spaced numbers.now) self.new }
    {
        for number in numbers {
            self.put(b' ');
            self.put_number(*number);
        }
    }

    // A buffer: its name and its cells in runs.
    pub fn put_list(&mut self, name: &[u8], cells: &[usize])
        ensures { Puts self.old (named name.now cells.now) self.new }
    {
        self.put_all(name);
        self.put_runs(cells);
    }

    // An answer line: NUMBER PASSES TERM PLACE, and each buffer in runs.
    pub fn put_answer(
        &mut self,
        outcome: Outcome,
        work: &[usize],
        sort_list: &[usize],
        errors: &[usize],
    )
        ensures { Puts self.old (answer_line outcome work.now sort_list.now errors.now) self.new }
    {
        self.put_number(outcome.number);
        self.put_spaced(&[outcome.passes, outcome.term, outcome.place]);
        self.put_list(b" | work", work);
        self.put_list(b" | sorts", sort_list);
        self.put_list(b" | errors", errors);
        self.put(LINE_FEED);
    }
}
