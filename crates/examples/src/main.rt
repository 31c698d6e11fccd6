// Answers the files that its arguments name, each in data/: the file's name, its output, an empty line. One of them is the
// folder itself, which can't be read: it has no output.
#![tactic(auto)]

use std::env::{Env, FillError};
use std::io::{Error, ErrorKind, Stdout};
use std::{fs, str};

// A longer argument names no file that the system has.
const NAME_BYTES: usize = 4096;

// A write that fails is not told.
fn say(stdout: Stdout, text: &[u8]) {
    let _ = stdout.write_all(text);
}

fn answer_file(rt: &HostRuntime, path: &str) {
    let name = path.as_bytes();
    let stdout = rt.stdout();
    match fs::open(rt, path) {
        Err(error) => out_write::fail(rt.stderr(), name, error),
        Ok(mut file) => {
            say(stdout, name);
            say(stdout, b"\n");
            out_write::answer(
                &mut file,
                stdout,
                rt.stderr(),
                name,
                b"examples: standard output",
            );
            say(stdout, b"\n");
        }
    }
}

// std opens files by names that are text alone.
fn answer_named(rt: &HostRuntime, name: &[u8]) {
    match str::from_utf8(name) {
        Ok(path) => answer_file(rt, path),
        Err(_) => out_write::fail(rt.stderr(), name, Error::from(ErrorKind::InvalidInput)),
    }
}

fn main(rt: HostRuntime) {
    let mut name = [0u8; NAME_BYTES];
    for i in 1..usize::MAX {
        match rt.arg(i, &mut name) {
            Ok(n) => answer_named(&rt, &name[..n]),
            Err(FillError::TooLong) => {
                let why = Error::from(ErrorKind::InvalidInput);
                out_write::fail(rt.stderr(), b"examples: an argument", why);
            }
            Err(FillError::NotPresent) => return,
        }
    }
}
