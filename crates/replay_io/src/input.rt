// Reading: bytes by blocks, decimal numbers, and lines of them.
ghost use Rattle.std.specs.Prelude.{◌≡◌, ◌<◌, ◌≤◌, length, IsNone};
ghost use Rattle.replay_io.specs.Read.{Fresh};

use std::io::{Read, Stdin};

// what is at hand at the end of the input
pub const END: Option<u8> = None;

pub const HASH: u8 = b'#';

pub const LINE_FEED: u8 = b'\n';

// As many bytes are read at a time.
const BLOCK_BYTES: usize = 65536;

// A number has at most so many digits.
const DIGITS: usize = 20;

// Standard input: a block of it; a place in the block, where the next byte is, and where the block ends; and the byte at hand.
// At the end of the input there is none at hand. A read that fails is the end.
#[derive(Clone, Copy)]
pub struct Input {
    stdin: Stdin,
    block: [u8; BLOCK_BYTES],
    pub at: usize,
    pub end: usize,
    pub at_hand: Option<u8>,
}

impl Input {
    // The first byte is at hand.
    pub fn new(stdin: Stdin) -> Input
        ensures { Fresh result }
    {
        let mut input = Input {
            stdin,
            block: [0; BLOCK_BYTES],
            at: 0,
            end: 0,
            at_hand: END,
        };
        input.advance();
        input
    }

    // The next byte is at hand; at the end of a block another is read.
    fn advance(&mut self)
        ensures { self.old.end ≤ self.old.at → Fresh self.new }
    {
        if self.at >= self.end {
            self.at = 0;
            self.end = self.stdin.read(&mut self.block).unwrap_or(0);
        }
        self.at_hand = END;
        if self.at < self.end {
            self.at_hand = self.block.get(self.at).copied();
            self.at += 1;
        }
    }

    // The byte at hand, which is then past.
    fn take(&mut self) -> Option<u8>
        ensures { IsNone self.old.at_hand → (IsNone result × (self.new ≡ self.old)) }
    {
        let byte = self.at_hand?;
        self.advance();
        Some(byte)
    }

    // To the first byte of the next line. At the end of the input nothing more is read.
    pub fn skip_line(&mut self)
        ensures { IsNone self.old.at_hand → self.new ≡ self.old }
    {
        // no line uses these up
        for _ in 0..u64::MAX {
            if let END | Some(LINE_FEED) = self.take() {
                return;
            }
        }
    }

    // The digit at hand, if it is one.
    fn digit(&mut self) -> Option<usize> {
        let digit = self.at_hand?.checked_sub(b'0').filter(|digit| *digit < 10)?;
        self.advance();
        Some(usize::from(digit))
    }

    // A decimal number, after a space if one is at hand. There is none where it has too many digits or passes 2^64.
    fn number(&mut self) -> Option<usize> {
        if self.at_hand == Some(b' ') {
            self.advance();
        }
        let mut value = self.digit()?;
        for _ in 1..DIGITS {
            let Some(digit) = self.digit() else {
                return Some(value);
            };
            value = value.checked_mul(10)?.checked_add(digit)?;
        }
        match self.digit() {
            Some(_) => None,
            None => Some(value),
        }
    }

    // The numbers of a line, up to what is none or as many as there is room for, and on to the next line.
    pub fn line<'a>(&mut self, cells: &'a mut [usize]) -> &'a [usize]
        ensures { length result.now ≤ length cells.old }
    {
        let mut count = 0;
        for cell in cells.iter_mut() {
            let Some(number) = self.number() else {
                break;
            };
            *cell = number;
            count += 1;
        }
        self.skip_line();
        &cells[..count]
    }
}
