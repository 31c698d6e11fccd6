// The refusals of a body.
ghost use Rattle.std.specs.Prelude.{◌≡◌, leb, length};
ghost use Rattle.definition.specs.Lists.{from, all};
ghost use Rattle.definition.specs.Numbers.{refused};
ghost use Rattle.grounded_body.specs.Body.{term_kind, constants, given_by};
ghost use Rattle.grounded_body.specs.Kinds.{atom_number};
ghost use Rattle.grounded_body.specs.Layout.{records_in};
ghost use Rattle.grounded_body.specs.Check.{sizes_fit, atom_fits, body_fits, shape_fits, atoms_refusal, grounded_refusal};
ghost use Rattle.grounded_body.specs.Parts.{seen, Modest, SideAdded};

use crate::{
    ATOM_CELLS, Atom, AtomKind, Body, COUNT_CELL, MAX_RECORDS, MAX_SIDE, MAX_TERMS, START_CELL,
    TERM_CELLS,
};
use definition::Refusal;
use rule_cells::field;
use solve_records::cells::{all_below, part_fits, within};
use solve_records::room::room_refusal;

// 1: no count exceeds its largest size or its list. Lists are divided, since a count times 8 may not fit.
fn sizes_fit(body: Body) -> bool
    ensures { result ≡ sizes_fit (seen body.entry) }
{
    within(body.counts.terms, MAX_TERMS, body.terms.len() / TERM_CELLS)
        && within(body.counts.arguments, MAX_SIDE, body.arguments.len())
        && body.counts.atoms <= body.atoms.len() / ATOM_CELLS
}

// An atom's kind, and its part of the argument list.
fn atom_fits(body: Body, atom: usize) -> bool
    ensures { result ≡ atom_fits (seen body.entry) atom }
{
    let start = field(body.atoms, atom, ATOM_CELLS, START_CELL);
    let count = field(body.atoms, atom, ATOM_CELLS, COUNT_CELL);
    body.atom_kind(atom).is_ok() && part_fits(start, count, body.counts.arguments)
}

// 2: kinds of atoms and parts of the argument list
fn atoms_fit(body: Body) -> bool
    ensures { result ≡ all (atom_fits (seen body.entry)) (from 0 body.entry.counts.atoms) }
{
    (0..body.counts.atoms).all(|atom| atom_fits(body, atom))
}

// kinds of terms
fn kinds_fit(body: Body) -> bool
    ensures { result ≡ all (λ t. leb (term_kind body.entry.terms.now t) 2) (from 0 body.entry.counts.terms) }
{
    (0..body.counts.terms).all(|term| body.term_kind(term).is_ok())
}

#[tactic(auto, unfolding(crate::specs::Check::body_fits))]
fn body_fits(body: Body) -> bool
    ensures { result ≡ body_fits (seen body.entry) }
{
    let arguments = rule_cells::part(body.arguments, 0, body.counts.arguments);
    atoms_fit(body) && all_below(arguments, body.counts.terms) && kinds_fit(body)
}

// 7: no arguments, or an equality without exactly two
#[tactic(auto, unfolding(crate::specs::Check::shape_fits))]
fn shape_fits(atom: Atom) -> bool
    ensures { result ≡ shape_fits (atom_number atom.entry.kind) (length atom.entry.arguments.now) }
{
    match atom.kind {
        AtomKind::Function | AtomKind::Primitive => 1 <= atom.arguments.len(),
        AtomKind::Equality => atom.arguments.len() == 2,
    }
}

// how many of the arguments are no variables
fn count_constants(body: Body, arguments: &[usize]) -> usize
    ensures { result ≡ length (constants body.entry.terms.now arguments.now) }
{
    arguments
        .iter()
        .filter(|term| !body.is_variable(**term))
        .count()
}

// the records that an atom adds
fn records_added(body: Body, atom: Atom) -> usize
    ensures { result ≡ records_in (given_by body.entry.terms.now (atom_number atom.entry.kind) atom.entry.arguments.now) }
{
    match atom.kind {
        AtomKind::Function => atom.arguments.len(),
        AtomKind::Primitive => count_constants(body, atom.arguments) + 2,
        AtomKind::Equality => count_constants(body, atom.arguments) + 1,
    }
}

// the cells of the side list that it adds
fn side_added(atom: Atom) -> usize
    ensures { SideAdded (atom_number atom.entry.kind) atom.entry.arguments.now result }
{
    match atom.kind {
        AtomKind::Primitive => atom.arguments.len().saturating_sub(1),
        AtomKind::Function | AtomKind::Equality => 0,
    }
}

// 7 and 10, atom by atom
fn atoms_refusal(body: Body) -> Result<(), Refusal>
    requires { Modest (seen body) }
    ensures { refused result ≡ atoms_refusal (seen body.entry) 0 0 (from 0 body.entry.counts.atoms) }
{
    let mut records = 0;
    let mut side = 0;
    for number in 0..body.counts.atoms {
        let atom = body.atom(number);
        if !shape_fits(atom) {
            return Err(Refusal::Miscounted);
        }
        records += records_added(body, atom);
        side += side_added(atom);
        if records > MAX_RECORDS || side > MAX_SIDE {
            return Err(Refusal::NoRoom);
        }
    }
    Ok(())
}

// the first refusal that is given
pub fn refusal(body: Body, work: usize, sort_list: usize, errors: usize) -> Result<(), Refusal>
    ensures { refused result ≡ grounded_refusal (seen body.entry) work sort_list errors }
{
    if !sizes_fit(body) {
        return Err(Refusal::TooMany);
    }
    if !body_fits(body) {
        return Err(Refusal::OutOfRange);
    }
    room_refusal(body.counts.terms, MAX_RECORDS, work, sort_list, errors)?;
    atoms_refusal(body)
}
