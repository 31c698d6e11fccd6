// Reading the tables: signatures, terms. A cell past a list's end reads as 0, as in the definitions.
ghost use Rattle.std.specs.Prelude.{◌+◌, ◌*◌, ◌<◌, ◌≡◌, get_or};
ghost use Rattle.rule_cells.specs.Field.{field_at};
ghost use Rattle.rule_signatures.specs.Tables.{signature_at, signature_cells, kind_at, head_at, mask_at, term_cells, known_sort, maybe, unbound};

use crate::{
    AllEqualTypeConstraint, Scope, Signature, SignatureKind, SimpleTypeConstraint, TERM_CELLS,
    TermKind,
};
use rule_cells::{cell, field};

// The cells of a signature.
const KIND: usize = 0;

const HEAD: usize = 1;

const MASK: usize = 2;

pub const START: usize = 3;

pub const COUNT: usize = 4;

pub const COMMON: usize = 5;

pub const LENGTH: usize = 6;

pub const OUTPUT: usize = 7;

// A cell of a signature of the table.
pub fn signature_cell(signatures: &[usize], number: usize, k: usize) -> usize
    requires { k < signature_cells }
    ensures { result ≡ get_or signatures.now (field_at number signature_cells k) 0 }
{
    field(signatures, number, SimpleTypeConstraint::CELLS, k)
}

pub fn kind_at(signatures: &[usize], number: usize) -> usize
    ensures { result ≡ kind_at signatures.now number }
{
    signature_cell(signatures, number, KIND)
}

pub fn head_at(signatures: &[usize], number: usize) -> usize
    ensures { result ≡ head_at signatures.now number }
{
    signature_cell(signatures, number, HEAD)
}

pub fn mask_at(signatures: &[usize], number: usize) -> usize
    ensures { result ≡ mask_at signatures.now number }
{
    signature_cell(signatures, number, MASK)
}

// A cell of the table as its value: 0 is absent, else the value is one less.
#[tactic(auto, using(crate::specs::Laws::maybe_less, crate::specs::Laws::maybe_none, crate::specs::Laws::maybe_some))]
fn optional(value: usize) -> Option<usize>
    ensures { result ≡ maybe value }
{
    value.checked_sub(1)
}

// The one function that reads a signature.
pub fn read_signature(signatures: &[usize], number: usize) -> Signature
    ensures { result ≡ signature_at signatures.now number }
{
    let head = head_at(signatures, number);
    if let SignatureKind::AllEqualPrimitive = SignatureKind::from(kind_at(signatures, number)) {
        let common = optional(signature_cell(signatures, number, COMMON));
        let length = optional(signature_cell(signatures, number, LENGTH));
        let output = optional(signature_cell(signatures, number, OUTPUT));
        let bare = AllEqualTypeConstraint::new(head);
        let some = common.map_or(bare, |sort| bare.with_all_arguments_sort(sort));
        let more = length.map_or(some, |n| some.with_exact_length(n));
        let all = output.map_or(more, |sort| more.with_output_sort(sort));
        return Signature::AllEqual(all);
    }
    let start = signature_cell(signatures, number, START);
    let count = signature_cell(signatures, number, COUNT);
    Signature::Simple(SimpleTypeConstraint::new(head, start, count))
}

// The kind and the value of a term.
pub fn term_kind(terms: &[usize], term: usize) -> usize
    ensures { result ≡ get_or terms.now (term * term_cells) 0 }
{
    field(terms, term, TERM_CELLS, 0)
}

pub fn term_value(terms: &[usize], term: usize) -> usize
    ensures { result ≡ get_or terms.now (term * term_cells + 1) 0 }
{
    field(terms, term, TERM_CELLS, 1)
}

// The sort of a literal or a global.
pub fn known_sort(scope: Scope, term: usize) -> Option<usize>
    ensures { result ≡ known_sort scope.entry.terms.now scope.entry.globals.now term }
{
    let value = term_value(scope.terms, term);
    match TermKind::from(term_kind(scope.terms, term)) {
        TermKind::Variable => None,
        TermKind::Global => optional(cell(scope.globals, value)),
        TermKind::Literal => Some(value),
    }
}

// A global without a sort.
pub fn is_unbound(scope: Scope, term: usize) -> bool
    ensures { result ≡ unbound scope.entry.terms.now scope.entry.globals.now term }
{
    TermKind::from(term_kind(scope.terms, term)) == TermKind::Global
        && cell(scope.globals, term_value(scope.terms, term)) == 0
}
