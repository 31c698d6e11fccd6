// The kinds of lists, each by the first byte of its name.
use crate::{body, call, outcome, problem};
use replay_io::output::Output;

#[derive(Clone, Copy)]
pub enum Kind {
    Problems,
    Calls,
    Bodies,
    Outcomes,
}

// A byte that begins no kind's name.
#[derive(Clone, Copy)]
pub struct NoKind;

impl TryFrom<u8> for Kind {
    type Error = NoKind;

    fn try_from(byte: u8) -> Result<Kind, NoKind> {
        match byte {
            b'p' => Ok(Kind::Problems),
            b'c' => Ok(Kind::Calls),
            b'b' => Ok(Kind::Bodies),
            b'o' => Ok(Kind::Outcomes),
            _ => Err(NoKind),
        }
    }
}

impl Kind {
    // The line that names it.
    pub fn put_name(self, output: &mut Output) {
        output.put_all(match self {
            Kind::Problems => b"problems\n",
            Kind::Calls => b"calls\n",
            Kind::Bodies => b"bodies\n",
            Kind::Outcomes => b"outcomes\n",
        });
    }

    // The answer to a line of this kind. There is none where the line lacks something, or lends more than there is room for.
    pub fn put_answer(self, line: &[usize], output: &mut Output) -> Option<()> {
        match self {
            Kind::Problems => problem::put_answer(line, output),
            Kind::Calls => call::put_answer(line, output),
            Kind::Bodies => body::put_answer(line, output),
            Kind::Outcomes => outcome::put_answer(line, output),
        }
    }
}
