// Refusal 2: a query's atoms, a list of actions.
ghost use Rattle.std.specs.Prelude.{◌≡◌, true, false};
ghost use Rattle.definition.specs.Lists.{all, from};
ghost use Rattle.rule_lent.specs.Call.{call_kind};
ghost use Rattle.rule_lent.specs.Fit.{variable_fits, call_part_fits, atom_fits, action_fits, call_fits};
ghost use Rattle.rule_lent.specs.Lend.{is_query, asked};

use crate::Tables;
use crate::calls::{Action, COUNT, Listed, START, X, Y, action_at, atom_at, call_cell};
use crate::entries::term_kind;
use rule_signatures::TermKind;
use solve_records::cells;

// A bound term is a variable.
pub fn variable_fits(terms: &[usize], count: usize, term: usize) -> bool
    ensures { result ≡ variable_fits terms.now count term }
{
    term < count && matches!(term_kind(terms, term), Ok(TermKind::Variable))
}

// The arguments of an atom or an action are a part of the list.
fn part_fits(calls: &[usize], i: usize, arguments: usize) -> bool
    ensures { result ≡ call_part_fits (asked true calls.now) arguments i }
{
    cells::part_fits(
        call_cell(calls, i, START),
        call_cell(calls, i, COUNT),
        arguments,
    )
}

// An atom's kind is one, and its arguments are a part of the list.
fn atom_fits(calls: &[usize], i: usize, arguments: usize) -> bool
    ensures { result ≡ atom_fits (asked true calls.now) arguments i (call_kind (asked true calls.now) i) }
{
    atom_at(calls, i).is_ok() && part_fits(calls, i, arguments)
}

// An action's kind is one; its arguments are a part of the list, and x and y terms, where its kind reads them.
fn action_fits(calls: &[usize], i: usize, terms: &[usize], count: usize, arguments: usize) -> bool
    ensures { result ≡ action_fits terms.now count (asked false calls.now) arguments i (call_kind (asked false calls.now) i) }
{
    let part = part_fits(calls, i, arguments);
    let x = call_cell(calls, i, X);
    let y = call_cell(calls, i, Y);
    let variable = variable_fits(terms, count, x);
    let Ok(kind) = action_at(calls, i) else {
        return false;
    };
    match kind {
        Action::Let => part && variable,
        Action::Set => part && x < count,
        Action::Change => part,
        Action::Union => x < count && y < count,
        Action::LetAtomTerm => variable && y < count,
        Action::Panic => true,
    }
}

impl Listed {
    // Atom or action i is in range.
    fn fits(
        self,
        calls: &[usize],
        i: usize,
        terms: &[usize],
        count: usize,
        arguments: usize,
    ) -> bool
        ensures { result ≡ call_fits terms.now count (asked (is_query self) calls.now) arguments i }
    {
        match self {
            Listed::Atoms => atom_fits(calls, i, arguments),
            Listed::Actions => action_fits(calls, i, terms, count, arguments),
        }
    }
}

pub fn calls_fit(listed: Listed, tables: Tables, terms: &[usize], count: usize) -> bool
    ensures { result ≡ all (call_fits terms.now count (asked (is_query listed) tables.entry.calls.now) tables.entry.lent.arguments) (from 0 tables.entry.lent.calls) }
{
    let arguments = tables.lent.arguments;
    (0..tables.lent.calls).all(|i| listed.fits(tables.calls, i, terms, count, arguments))
}
