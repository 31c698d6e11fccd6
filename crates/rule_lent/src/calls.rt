// An atom or an action of a call, cell by cell.
ghost use Rattle.std.specs.Prelude.{◌<◌, ◌≡◌, true, false, get_or};
ghost use Rattle.rule_cells.specs.Field.{field_at};
ghost use Rattle.rule_lent.specs.Call.{call_cells, call_kind};
ghost use Rattle.rule_lent.specs.Numbers.{atom_of_number, action_of_number};
ghost use Rattle.rule_lent.specs.Lend.{asked};

use definition::Refusal;
use rule_cells::field;

// An atom or an action is 8 cells: kind, head, start and count of its arguments, x, y, place, one that is not read.
pub const CALL_CELLS: usize = 8;

pub const KIND: usize = 0;

pub const HEAD: usize = 1;

pub const START: usize = 2;

pub const COUNT: usize = 3;

pub const X: usize = 4;

pub const Y: usize = 5;

pub const PLACE: usize = 6;

// What a call lists: the atoms of a query, or actions.
#[derive(Clone, Copy, Debug, PartialEq, Eq)]
pub enum Listed {
    Atoms,
    Actions,
}

// The kinds of an atom, each with its number: a head is applied, two terms are equal.
#[derive(Clone, Copy, Debug, PartialEq, Eq)]
pub enum Atom {
    Applies = 0,
    Equality = 1,
}

impl TryFrom<usize> for Atom {
    type Error = Refusal;

    ghost try_from_gives = { λ number atom. atom ≡ atom_of_number number };

    fn try_from(number: usize) -> Result<Atom, Refusal> {
        match number {
            0 => Ok(Atom::Applies),
            1 => Ok(Atom::Equality),
            _ => Err(Refusal::OutOfRange),
        }
    }
}

// The kinds of an action, each with its number.
#[derive(Clone, Copy, Debug, PartialEq, Eq)]
pub enum Action {
    Let = 0,
    Set = 1,
    Change = 2,
    Union = 3,
    LetAtomTerm = 4,
    Panic = 5,
}

impl TryFrom<usize> for Action {
    type Error = Refusal;

    ghost try_from_gives = { λ number action. action ≡ action_of_number number };

    fn try_from(number: usize) -> Result<Action, Refusal> {
        match number {
            0 => Ok(Action::Let),
            1 => Ok(Action::Set),
            2 => Ok(Action::Change),
            3 => Ok(Action::Union),
            4 => Ok(Action::LetAtomTerm),
            5 => Ok(Action::Panic),
            _ => Err(Refusal::OutOfRange),
        }
    }
}

// A cell of atom or action i, 0 past the list's end.
pub fn call_cell(calls: &[usize], i: usize, k: usize) -> usize
    requires { k < call_cells }
    ensures { result ≡ get_or calls.now (field_at i call_cells k) 0 }
{
    field(calls, i, CALL_CELLS, k)
}

// The kind of atom i.
pub fn atom_at(calls: &[usize], i: usize) -> Result<Atom, Refusal>
    ensures { result ≡ atom_of_number (call_kind (asked true calls.now) i) }
{
    Atom::try_from(call_cell(calls, i, KIND))
}

// The kind of action i.
pub fn action_at(calls: &[usize], i: usize) -> Result<Action, Refusal>
    ensures { result ≡ action_of_number (call_kind (asked false calls.now) i) }
{
    Action::try_from(call_cell(calls, i, KIND))
}
