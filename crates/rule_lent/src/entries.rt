// Refusal 2: the signatures, the globals, the terms.
ghost use Rattle.std.specs.Prelude.{◌+◌, ◌≡◌, ◌&&◌, leb};
ghost use Rattle.definition.specs.Lists.{all, from};
ghost use Rattle.rule_signatures.specs.Tables.{kind_at as kind_of_signature, term_kind as kind_of_term};
ghost use Rattle.rule_lent.specs.Fit.{max_length, signature_fits, term_cells_fit, terms_fit};
ghost use Rattle.rule_lent.specs.Numbers.{signature_of_number, term_of_number};

use definition::Refusal;
use rule_signatures::table::{COMMON, COUNT, LENGTH, OUTPUT, START, signature_cell};
use rule_signatures::{AllEqualTypeConstraint, SignatureKind, TermKind, table};
use solve_records::cells;

// A number past these is no kind.
const SIGNATURE_KINDS: usize = 4;

const TERM_KINDS: usize = 3;

// The kind of a signature, where its number is one.
#[tactic(auto, using(crate::proofs::ByKind::signature_kinds))]
fn signature_kind(signatures: &[usize], number: usize) -> Result<SignatureKind, Refusal>
    ensures { result ≡ signature_of_number (kind_of_signature signatures.now number) }
{
    let kind = table::kind_at(signatures, number);
    if SIGNATURE_KINDS <= kind {
        return Err(Refusal::OutOfRange);
    }
    Ok(SignatureKind::from(kind))
}

// The kind of a term, where its number is one.
#[tactic(auto, using(crate::proofs::ByKind::term_kinds))]
pub fn term_kind(terms: &[usize], term: usize) -> Result<TermKind, Refusal>
    ensures { result ≡ term_of_number (kind_of_term terms.now term) }
{
    let kind = table::term_kind(terms, term);
    if TERM_KINDS <= kind {
        return Err(Refusal::OutOfRange);
    }
    Ok(TermKind::from(kind))
}

// The table has one more than an exact length.
const MAX_LENGTH_CELL: usize = AllEqualTypeConstraint::MAX_LENGTH + 1;

// What an all-equal primitive's cells hold: 0 for absent, else a value and 1.
fn shape_fits(common: usize, length: usize, output: usize, sorts: usize) -> bool
    ensures { result ≡ (leb common sorts && (leb length (max_length + 1) && leb output sorts)) }
{
    common <= sorts && length <= MAX_LENGTH_CELL && output <= sorts
}

// A signature's kind is one, and the cells that its kind reads are in range.
fn signature_fits(signatures: &[usize], number: usize, used: usize, sorts: usize) -> bool
    ensures { result ≡ signature_fits signatures.now used sorts number }
{
    let Ok(kind) = signature_kind(signatures, number) else {
        return false;
    };
    match kind {
        SignatureKind::Function | SignatureKind::Constructor | SignatureKind::SimplePrimitive => {
            cells::part_fits(
                signature_cell(signatures, number, START),
                signature_cell(signatures, number, COUNT),
                used,
            )
        }
        SignatureKind::AllEqualPrimitive => shape_fits(
            signature_cell(signatures, number, COMMON),
            signature_cell(signatures, number, LENGTH),
            signature_cell(signatures, number, OUTPUT),
            sorts,
        ),
    }
}

pub fn signatures_fit(signatures: &[usize], declared: usize, used: usize, sorts: usize) -> bool
    ensures { result ≡ all (signature_fits signatures.now used sorts) (from 0 declared) }
{
    (0..declared).all(|i| signature_fits(signatures, i, used, sorts))
}

// A global has no sort, 0, or a sort and 1.
pub fn globals_fit(globals: &[usize], sorts: usize) -> bool
    ensures { result ≡ all (λ g. leb g sorts) globals.now }
{
    globals.iter().all(|global| *global <= sorts)
}

// A variable, a global of any number, or a literal whose sort is one.
fn term_fits(terms: &[usize], term: usize, sorts: usize) -> bool
    ensures { result ≡ term_cells_fit terms.now sorts term }
{
    let Ok(kind) = term_kind(terms, term) else {
        return false;
    };
    match kind {
        TermKind::Variable | TermKind::Global => true,
        TermKind::Literal => table::term_value(terms, term) < sorts,
    }
}

pub fn terms_fit(terms: &[usize], count: usize, sorts: usize) -> bool
    ensures { result ≡ terms_fit terms.now count sorts }
{
    (0..count).all(|term| term_fits(terms, term, sorts))
}
