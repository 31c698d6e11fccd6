// What an update answers, what the trials of an Xor find, and how it stands with an Implies.

// An update failed, with so many entries at the front of the list of errors.
#[derive(Clone, Copy, Debug, PartialEq, Eq)]
pub struct ConstraintError {
    pub entries: usize,
}

// Whether an update changed something, or its error.
pub type Answer = Result<bool, ConstraintError>;

// No child fitted, with so many entries at the front of the list of errors; one did: its number, and whether it
// changed something; or more than one did.
#[derive(Clone, Copy, Debug, PartialEq, Eq)]
pub enum Tried {
    Nothing(usize),
    Single(usize, bool),
    Several,
}

// An Implies waits for a term that has no sort; or it fires now; or it has fired before.
#[derive(Clone, Copy, Debug, PartialEq, Eq)]
pub enum Firing {
    Waits,
    Fires,
    Fired,
}
