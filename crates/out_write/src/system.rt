// Reads and writes that go on until all is read or written, or one fails. One that a signal interrupted is made again.
ghost use Rattle.std.specs.Prelude.{◌≡◌, ◌≤◌, ◌<◌, ◌+◌, ◌^◌, length, IfOk};
ghost use Rattle.out_write.specs.Handed.{Came, AtMost, Stopped, Handed};

use std::io;
use std::io::{ErrorKind, Read, Write};

// So many bytes are asked for at a time: a longer text takes several reads, also where it is a file.
const BLOCK: usize = 4096;

// How reading ended, and after how many bytes: with the input, or with a full room.
// Stays: `Stopped` tells the two apart, and a number alone says neither.
#[derive(Clone, Copy)]
pub enum Reading {
    End(usize),
    Full(usize),
}

// Why reading or writing failed, and after how many bytes.
#[derive(Clone, Copy)]
pub struct Broken {
    pub bytes: usize,
    pub why: io::Error,
}

impl Broken {
    // The same, where so many bytes were read or written before.
    pub(crate) fn behind(self, before: usize) -> Broken
        requires { before + self.bytes < 2 ^ 64 }
        ensures { result.bytes ≡ before + self.bytes }
    {
        Broken {
            bytes: before + self.bytes,
            ..self
        }
    }
}

// A writer, and why the last call of it that failed did.
#[derive(Drop)]
pub struct Noted<'a, W> {
    to: &'a mut W,
    why: Option<io::Error>,
}

impl<'a, W> Noted<'a, W> {
    pub fn new(to: &'a mut W) -> Noted<'a, W> {
        Noted { to, why: None }
    }

    // Why writing stopped. A write that takes nothing names no error itself: for it an interruption before it is told, if
    // there was one.
    pub fn reason(&self, broken: Broken) -> io::Error {
        self.why.unwrap_or(broken.why)
    }
}

impl<W: Write> Write for Noted<'_, W> {
    fn write(&mut self, bytes: &[u8]) -> io::Result<usize> {
        let moved = self.to.write(bytes);
        if let Err(error) = moved {
            self.why = Some(error);
        }
        moved
    }

    fn flush(&mut self) -> io::Result<()> {
        self.to.flush()
    }
}

// Makes a call again while a signal interrupts it. A proved loop has to end, so it counts its turns, up to a number that no
// run uses up.
fn retried<F: FnMut() -> io::Result<usize>>(mut call: F) -> io::Result<usize>
    requires { F.IsAlwaysCallable call }
{
    for _ in 0..u64::MAX {
        match call() {
            Err(error) if error.kind() == ErrorKind::Interrupted => (),
            moved => return moved,
        }
    }
    call()
}

// What a call's answer stands for: how many bytes it moved, none where there are no more.
fn what_came(moved: io::Result<usize>, room: usize) -> io::Result<Option<usize>>
    ensures came { Came moved room result }
    ensures at_most { AtMost room result }
{
    match moved?.min(room) {
        0 => Ok(None),
        bytes => Ok(Some(bytes)),
    }
}

// One read, to the front of the room.
fn read_some<R: Read>(from: &mut R, room: &mut [u8]) -> io::Result<Option<usize>>
    ensures { AtMost (length room.old) result }
{
    let end = BLOCK.min(room.len());
    let block = &mut room[..end];
    what_came(retried(|| from.read(block)), block.len())
}

// Reads to the front of the room until it is full, the input ends or a read fails.
// Stays: a `while`. How far a turn goes is the system's to say.
pub fn read_whole<R: Read>(from: &mut R, room: &mut [u8]) -> Result<Reading, Broken>
    ensures { Stopped (length room.new) result }
{
    let mut at = 0;
    while at < room.len() {
        match read_some(from, &mut room[at..]) {
            Ok(Some(n)) => at += n,
            Ok(None) => return Ok(Reading::End(at)),
            Err(why) => return Err(Broken { bytes: at, why }),
        }
    }
    Ok(Reading::Full(at))
}

// One write. One that takes nothing has failed.
fn write_some<W: Write>(to: &mut W, bytes: &[u8]) -> io::Result<usize>
    ensures { IfOk result (λ n. (1 ≤ n) × (n ≤ length bytes.now)) }
{
    match what_came(retried(|| to.write(bytes)), bytes.len())? {
        Some(n) => Ok(n),
        None => Err(io::Error::from(ErrorKind::WriteZero)),
    }
}

// Writes all of the list, unless a write fails.
// Stays: a loop of its own beside that of `read_whole`. Tried: one loop over a closure that is told how many bytes were moved.
// It proves, but what a write may take at most then isn't known, and `written_again_from_the_start` would prove too.
pub fn write_whole<W: Write>(to: &mut W, bytes: &[u8]) -> Result<usize, Broken>
    ensures { Handed (length bytes.now) result }
{
    let mut taken = 0;
    while taken < bytes.len() {
        match write_some(to, &bytes[taken..]) {
            Ok(n) => taken += n,
            Err(why) => return Err(Broken { bytes: taken, why }),
        }
    }
    Ok(taken)
}
