// Replays a list of texts and writes the list of their outputs. Each stands there as its byte count, a line feed, its
// bytes, a line feed.
#![tactic(auto)]

ghost use Rattle.std.specs.Prelude.{◌≡◌, ◌≤◌, length};

use std::io::{Read, Stdin, Stdout};

const LIST_BYTES: usize = 1048576;

// The number that the digits spell, 0 for any other word and for a number far above the list's length.
fn count_of(word: &[u8]) -> usize
    ensures { result ≤ 20000000 }
{
    let mut count = 0;
    for byte in word {
        match byte.checked_sub(b'0') {
            Some(digit @ ..10) if count <= LIST_BYTES => count = count * 10 + usize::from(digit),
            _ => return 0,
        }
    }
    count
}

// The output of a text, as it stands in the list. A write that fails is not told.
fn write_listed(mut stdout: Stdout, text: &[u8]) {
    let bytes = out_text::put_text(text, &mut [0]);
    let _ = stdout.println(bytes);
    let _ = out_write::write_output(&mut stdout, text);
    let _ = stdout.write_all(b"\n");
}

fn replay(stdout: Stdout, list: &[u8]) {
    let mut rest = list;
    // Stays: a `while`, since a turn cuts from the list as much as stands in it.
    while !rest.is_empty() {
        let feed = rest
            .iter()
            .position(|byte| *byte == b'\n')
            .unwrap_or(rest.len());
        let (word, behind) = rest.split_at(feed);
        let behind = behind.get(1..).unwrap_or_default();
        let (text, behind) = behind.split_at(count_of(word).min(behind.len()));
        write_listed(stdout, text);
        rest = behind.get(1..).unwrap_or_default();
    }
}

// A function of its own, so that its proof and no other sees an array of so many bytes.
fn room() -> [u8; LIST_BYTES]
    ensures { length result ≡ 1048576 }
{
    [0; LIST_BYTES]
}

// Reads until the list is full, the input ends or a read fails. Answers how many bytes the list has.
fn read_full(mut stdin: Stdin, list: &mut [u8]) -> usize
    ensures { result ≤ length list.new }
{
    let mut done = 0;
    // Stays: a `while`, since how far a turn goes is the system's to say.
    while let Ok(count @ 1..) = stdin.read(&mut list[done..]) {
        done += count;
    }
    done
}

fn main(rt: HostRuntime) {
    let stdout = rt.stdout();
    let mut list = room();
    let n = read_full(rt.stdin(), &mut list);
    if n == LIST_BYTES {
        let _ = stdout.write_all(b"the list is too long\n");
        return;
    }
    replay(stdout, &list[..n]);
}
