// The records, the side list and the top-level list of a body.
ghost use Rattle.std.specs.Prelude.{◌≤◌, ◌≡◌, [], ◌∷◌, length};
ghost use Rattle.definition.specs.Lists.{last_of, without_last};
ghost use Rattle.definition.specs.Numbers.{kind_number};
ghost use Rattle.grounded_body.specs.Body.{follows, assigns, given_by};
ghost use Rattle.grounded_body.specs.Kinds.{atom_number};
ghost use Rattle.grounded_body.specs.Layout.{constraints};
ghost use Rattle.grounded_body.specs.Parts.{seen, is_assigned, assigned_by, Lays, LaysFlat, PutsTop, Room, AtomFits, none_laid, Accepted};

use crate::{Atom, AtomKind, Body};
use definition::Kind;
use rule_cells::{Origin, RECORD_CELLS};

// How many records, side cells and top-level entries are laid.
#[derive(Clone, Copy)]
pub struct Laid {
    pub records: usize,
    pub side: usize,
    pub tops: usize,
}

// a record, at the top level
fn put_top(
    at: Laid,
    kind: Kind,
    first: usize,
    second: usize,
    place: usize,
    records: &mut [usize],
    tops: &mut [usize],
) -> Laid
    requires { Room at 1 }
    ensures { PutsTop place at (kind_number kind) first second records.old tops.old result records.new tops.new }
{
    rule_cells::put_record(
        records,
        at.records,
        kind.number(),
        first,
        second,
        Origin { place },
    );
    rule_cells::put(tops, at.tops, at.records);
    Laid {
        records: at.records + 1,
        tops: at.tops + 1,
        ..at
    }
}

// whether an atom of this kind assigns the term
fn is_assigned(kind: AtomKind, body: Body, term: usize) -> bool
    ensures { result ≡ is_assigned (atom_number kind) body.entry.terms.now term }
{
    kind == AtomKind::Function || !body.is_variable(term)
}

// an Assign for each of the arguments that an atom of this kind assigns
fn put_assigns(at: Laid, atom: Atom, body: Body, records: &mut [usize], tops: &mut [usize]) -> Laid
    requires { Room at (length atom.arguments.now) }
    ensures { LaysFlat body.entry.place at (assigns (assigned_by (atom_number atom.entry.kind) body.entry.terms.now atom.entry.arguments.now)) records.old tops.old result records.new tops.new }
{
    let mut laid = at;
    for term in atom.arguments {
        if is_assigned(atom.kind, body, *term) {
            laid = put_top(laid, Kind::Assign, *term, 0, body.place, records, tops);
        }
    }
    laid
}

// an Implies from the inputs to an Assign of the output
fn put_implies(
    at: Laid,
    arguments: &[usize],
    place: usize,
    records: &mut [usize],
    side: &mut [usize],
    tops: &mut [usize],
) -> Laid
    requires { (Room at (length arguments.now)) × (1 ≤ length arguments.now) }
    ensures { Lays place at (follows (without_last arguments.now) (last_of arguments.now) ∷ []) records.old side.old tops.old result records.new side.new tops.new }
{
    let inputs = arguments.len() - 1;
    rule_cells::put_record(
        records,
        at.records,
        Kind::Assign.number(),
        arguments[inputs],
        0,
        Origin { place },
    );
    let cells = [
        Kind::Implies.number(),
        at.side,
        inputs,
        at.records,
        0,
        0,
        place,
        0,
    ];
    rule_cells::put_all(records, (at.records + 1) * RECORD_CELLS, &cells);
    rule_cells::put_all(side, at.side, &arguments[..inputs]);
    rule_cells::put(tops, at.tops, at.records + 1);
    Laid {
        records: at.records + 2,
        side: at.side + inputs,
        tops: at.tops + 1,
    }
}

// what an atom gives, by its kind
fn put_atom(
    at: Laid,
    atom: Atom,
    body: Body,
    records: &mut [usize],
    side: &mut [usize],
    tops: &mut [usize],
) -> Laid
    requires { AtomFits at (atom_number atom.kind) atom.arguments.now }
    ensures { Lays body.entry.place at (given_by body.entry.terms.now (atom_number atom.entry.kind) atom.entry.arguments.now) records.old side.old tops.old result records.new side.new tops.new }
{
    let own = atom.arguments;
    let laid = match atom.kind {
        AtomKind::Function => at,
        AtomKind::Primitive => put_implies(at, own, body.place, records, side, tops),
        AtomKind::Equality => put_top(at, Kind::Eq, own[0], own[1], body.place, records, tops),
    };
    put_assigns(laid, atom, body, records, tops)
}

// all atoms
pub fn lay(body: Body, records: &mut [usize], side: &mut [usize], tops: &mut [usize]) -> Laid
    requires { Accepted (seen body) }
    ensures { Lays body.entry.place none_laid (constraints (seen body.entry)) records.old side.old tops.old result records.new side.new tops.new }
{
    let mut laid = Laid {
        records: 0,
        side: 0,
        tops: 0,
    };
    for number in 0..body.counts.atoms {
        laid = put_atom(laid, body.atom(number), body, records, side, tops);
    }
    laid
}
