// Refusals 1 and 2 of a generator's call, over all that it is lent. Any numbers may be lent.
#![tactic(auto)]

ghost use Rattle.std.specs.Prelude.{◌≡◌, Bool};
ghost use Rattle.definition.specs.Numbers.{refused};
ghost use Rattle.solve_records.specs.Lent.{seen};
ghost use Rattle.rule_lent.specs.Fit.{terms_counted, tables_counted, tables_fit, refusal_with, lent_refusal, local_fits, local_tested};
ghost use Rattle.rule_lent.specs.Lend.{lends, counted};

use calls::{CALL_CELLS, Listed};
use definition::{Counts, Problem, Refusal};
use rule_cells::part;
use rule_signatures::{SimpleTypeConstraint, TERM_CELLS};
use solve_records::cells;

mod actions;
pub mod calls;
mod entries;

// The counts of what a call is lent besides the problem, and its context.
#[repr(C)]
#[derive(Clone, Copy)]
pub struct Lent {
    pub signatures: usize,
    pub signature_sorts: usize,
    pub globals: usize,
    pub context: usize,
    pub calls: usize,
    pub arguments: usize,
}

// What a call is lent besides the problem, but for the terms, which actions write.
#[derive(Clone, Copy)]
pub struct Tables<'a> {
    pub lent: Lent,
    pub signatures: &'a [usize],
    pub signature_sorts: &'a [usize],
    pub globals: &'a [usize],
    pub calls: &'a [usize],
    pub arguments: &'a [usize],
}

// Cells of an entry of each table.
const SIGNATURE_CELLS: usize = SimpleTypeConstraint::CELLS;

// The largest counts.
const MAX_SIGNATURES: usize = 256;

const MAX_SIGNATURE_SORTS: usize = SimpleTypeConstraint::MAX_SORTS;

const MAX_GLOBALS: usize = 256;

const MAX_ARGUMENTS: usize = 2048;

// A context is below this.
const CONTEXTS: usize = 8;

// The list has the cells of so many terms. It is divided, since a count times 2 may not fit.
#[tactic(auto, using(crate::proofs::Counts::terms_divided))]
pub fn terms_counted(count: usize, terms: &[usize]) -> bool
    ensures { result ≡ terms_counted count terms.now }
{
    count <= terms.len() / TERM_CELLS
}

// No count exceeds its largest size or its list.
#[tactic(auto, using(crate::proofs::Counts::tables_divided))]
fn tables_counted(counts: Counts, tables: Tables, terms: &[usize]) -> bool
    ensures { result ≡ tables_counted (lends Listed.Atoms tables.entry terms.now (counted counts)) }
{
    let lent = tables.lent;
    let held = tables.signatures.len() / SIGNATURE_CELLS;
    let sorts = tables.signature_sorts.len();
    cells::within(lent.signatures, MAX_SIGNATURES, held)
        && cells::within(lent.signature_sorts, MAX_SIGNATURE_SORTS, sorts)
        && cells::within(lent.globals, MAX_GLOBALS, tables.globals.len())
        && cells::within(lent.arguments, MAX_ARGUMENTS, tables.arguments.len())
        && lent.calls <= tables.calls.len() / CALL_CELLS
        && terms_counted(counts.terms, terms)
}

// Every cell within the counts is in range.
#[tactic(auto, using(crate::proofs::Whole::tables_asked))]
fn tables_fit(listed: Listed, counts: Counts, tables: Tables, terms: &[usize]) -> bool
    ensures { result ≡ tables_fit (lends listed tables.entry terms.now (counted counts)) }
{
    let lent = tables.lent;
    let used = lent.signature_sorts;
    lent.context < CONTEXTS
        && entries::signatures_fit(tables.signatures, lent.signatures, used, counts.sorts)
        && cells::all_below(part(tables.signature_sorts, 0, used), counts.sorts)
        && entries::globals_fit(part(tables.globals, 0, lent.globals), counts.sorts)
        && entries::terms_fit(terms, counts.terms, counts.sorts)
        && cells::all_below(part(tables.arguments, 0, lent.arguments), counts.terms)
        && actions::calls_fit(listed, tables, terms, counts.terms)
}

// Refusal 1 over everything, then 2 over everything: of the problem, and by two tests of what else is lent. The second
// is made only where 1 is not given.
fn refused_by<F: FnOnce() -> bool>(problem: Problem, counted: bool, fits: F) -> Result<(), Refusal>
    requires { F.IsAlwaysCallable fits }
    ensures { (test : Bool) → ((r : Bool) → F.post fits r → r ≡ test) → refused result ≡ refusal_with (seen problem.entry) counted test }
{
    if !counted {
        return Err(Refusal::TooMany);
    }
    solve_records::cells_refusal(problem)?;
    if !fits() {
        return Err(Refusal::OutOfRange);
    }
    Ok(())
}

// Of a call, which is lent the tables.
pub fn lent_refusal(
    listed: Listed,
    tables: Tables,
    terms: &[usize],
    problem: Problem,
) -> Result<(), Refusal>
    ensures { refused result ≡ lent_refusal (lends listed tables.entry terms.now (seen problem.entry)) }
{
    let counts = problem.counts;
    let held = tables_counted(counts, tables, terms);
    let fits = || -> bool
        ensures { result ≡ tables_fit (lends listed tables.entry terms.entry.now (counted counts)) }
    { tables_fit(listed, counts, tables, terms) };
    refused_by(problem, held, fits)
}

// The terms, the variable and the sort of a typed local are in range.
fn local_fits(counts: Counts, terms: &[usize], term: usize, sort: usize) -> bool
    ensures { result ≡ local_fits counts terms.now term sort }
{
    entries::terms_fit(terms, counts.terms, counts.sorts)
        && actions::variable_fits(terms, counts.terms, term)
        && sort < counts.sorts
}

// Of a typed local, which is lent the terms.
pub fn local_refusal(
    terms: &[usize],
    term: usize,
    sort: usize,
    problem: Problem,
) -> Result<(), Refusal>
    ensures { refused result ≡ local_tested (seen problem.entry) terms.now term sort }
{
    let counts = problem.counts;
    let held = terms_counted(counts.terms, terms);
    refused_by(problem, held, || local_fits(counts, terms, term, sort))
}
