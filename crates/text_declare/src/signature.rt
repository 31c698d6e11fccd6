// Lines that declare a signature: a function, a constructor, a primitive of either kind.
ghost use Rattle.std.specs.Prelude.{◌≡◌, suc, ◌*◌, ◌-◌, ◌≤◌, cond, map, length};
ghost use Rattle.std.proofs.lemmas.List.Edits.{sets};
ghost use Rattle.rule_signatures.specs.Tables.{signature_cells};
ghost use Rattle.rule_lent.specs.Fit.{max_signatures};
ghost use Rattle.text_words.specs.Names.{is_absent, number_below};
ghost use Rattle.text_words.specs.Parts.{parts_from, part_cells, find as first_part, Whole, all_of};
ghost use Rattle.text_grammar.specs.Grammar.{length_bound};
ghost use Rattle.text_declare.specs.Steps.{small};
ghost use Rattle.text_declare.specs.Signatures.{plain as plain_signature, signature_for, cells_of, sort_number, signature_step, head_names_after, signatures_after, signature_sorts_after};

use crate::{Step, full, put_name, taken, word};
use rule_cells::{put, put_all};
use rule_signatures::SimpleTypeConstraint;
use text_definition::Numbers;
use text_grammar::Form;
use text_grammar::forms::{LENGTH_BOUND, MASK_BOUND};
use text_words::names;
use text_words::parts::Parts;

// The forms of a line by their order in the grammar: a function, a constructor, a simple primitive, an all-equal one.
const FUN: usize = Form::Fun as usize;

const SIMPLE: usize = Form::Simple as usize;

const EQUAL: usize = Form::Equal as usize;

const MAX_SIGNATURES: usize = 256;

const MAX_SIGNATURE_SORTS: usize = SimpleTypeConstraint::MAX_SORTS;

// What a signature says besides its head: kind and mask, which of the line's words is the first of its sorts, the common sort,
// the exact length and the output sort of an all-equal primitive, 0 for absent, else the value + 1.
// Stays: cells and no Option, since `put_signature` writes them as they are: an Option would be made to be a cell at once.
#[derive(Clone, Copy)]
pub struct Signature {
    pub kind: usize,
    pub mask: usize,
    pub first: usize,
    pub common: usize,
    pub exact: usize,
    pub output: usize,
}

fn plain(kind: usize, mask: usize, first: usize) -> Signature
    ensures { result ≡ plain_signature kind mask first }
{
    Signature {
        kind,
        mask,
        first,
        common: 0,
        exact: 0,
        output: 0,
    }
}

// 0 for absent, else the sort + 1.
#[tactic(auto, using(text_words::specs::Laws::Table::find_within))]
fn sort_cell(sorts: Parts, w: &[u8]) -> usize
    requires { (sorts.count ≤ small) × Whole sorts }
    ensures { result ≡ cond (is_absent w.now) 0 (suc (first_part w.now (all_of sorts.entry))) }
{
    if names::is_absent(w) {
        return 0;
    }
    sorts.find(w) + 1
}

// 0 for absent, else the length + 1.
#[tactic(auto, using(text_words::specs::Laws::Table::unwrap_below, text_words::specs::Laws::Table::number_most))]
fn length_cell(w: &[u8]) -> usize
    ensures { result ≡ cond (is_absent w.now) 0 (suc (number_below length_bound w.now)) }
{
    if names::is_absent(w) {
        return 0;
    }
    names::number_below(w, LENGTH_BOUND).unwrap_or(LENGTH_BOUND) + 1
}

// What a line of this form says.
#[tactic(auto, using(text_words::specs::Laws::Table::unwrap_below), unfolding(crate::specs::Signatures::signature_for))]
fn signature_of(form: usize, line: Parts, sorts: Parts) -> Signature
    requires le_form { (1 ≤ form) × (form ≤ 4) }
    requires n_le_small { (sorts.count ≤ small) × Whole sorts }
    requires one_text { sorts.text.now ≡ line.text.now }
    ensures { result ≡ signature_for form line.entry.text.now line.entry.table.now line.entry.count sorts.entry.table.now sorts.entry.count }
{
    let kind = form - FUN;
    if form < SIMPLE {
        return plain(kind, 0, 2);
    }
    let mask = names::number_below(word(line, 2), MASK_BOUND).unwrap_or(MASK_BOUND);
    if form == SIMPLE {
        return plain(kind, mask, 4);
    }
    Signature {
        common: sort_cell(sorts, word(line, 4)),
        exact: length_cell(word(line, 5)),
        output: sort_cell(sorts, word(line, 6)),
        ..plain(kind, mask, line.count)
    }
}

// Signature n of the table: its head, and its sorts, `length` of them from `used` on.
fn put_signature(
    signatures: &mut [usize],
    n: usize,
    says: Signature,
    head: usize,
    used: usize,
    length: usize,
)
    requires { n ≤ small }
    ensures { signatures.new ≡ sets signatures.old (n * signature_cells) (cells_of says head used length) }
{
    let cells = [
        says.kind,
        head,
        says.mask,
        used,
        length,
        says.common,
        says.exact,
        says.output,
        0,
        0,
    ];
    put_all(signatures, n * SimpleTypeConstraint::CELLS, &cells);
}

// The numbers of the sorts that are the words from `first` on, from `used` on.
fn put_sorts(line: Parts, first: usize, sorts: Parts, signature_sorts: &mut [usize], used: usize)
    requires whole { Whole sorts }
    requires count_le_small { (line.count ≤ small) × (used ≤ small) }
    ensures { signature_sorts.new ≡ sets signature_sorts.old used (map (sort_number sorts.entry.text.now sorts.entry.table.now sorts.entry.count) (parts_from line.entry.text.now line.entry.table.now first (line.entry.count - first))) }
{
    for i in first..line.count {
        put(
            signature_sorts,
            used + (i - first),
            sorts.find(word(line, i)),
        );
    }
}

pub fn declare_signature(
    form: usize,
    line: Parts,
    step: Step,
    sort_names: &[usize],
    head_names: &mut [usize],
    signatures: &mut [usize],
    signature_sorts: &mut [usize],
) -> Step
    requires sorts_le_small { (step.numbers.sorts ≤ small) × (step.numbers.sorts * part_cells ≤ length sort_names.now) }
    requires used_le_small { (step.numbers.used ≤ small) × (line.count ≤ small) × (length head_names.old ≡ max_signatures * part_cells) }
    ensures value { result ≡ signature_step form step line.entry.text.now line.entry.table.now line.entry.count sort_names.now }
    ensures head_names_after { head_names.new ≡ head_names_after form step line.entry.text.now line.entry.table.now line.entry.count sort_names.now head_names.old }
    ensures signatures_after { signatures.new ≡ signatures_after form step line.entry.text.now line.entry.table.now line.entry.count sort_names.now head_names.old signatures.old }
    ensures signature_sorts_after { signature_sorts.new ≡ signature_sorts_after form step line.entry.text.now line.entry.table.now line.entry.count sort_names.now signature_sorts.old }
{
    if form < FUN || EQUAL < form {
        return step;
    }
    let n = step.numbers;
    let sorts = Parts {
        table: sort_names,
        count: n.sorts,
        ..line
    };
    let says = signature_of(form, line, sorts);
    let length = line.count.saturating_sub(says.first);
    if MAX_SIGNATURES <= n.heads || MAX_SIGNATURE_SORTS < n.used + length {
        return full(n);
    }
    put_name(head_names, n.heads, line);
    let heads = Parts {
        table: head_names,
        count: n.heads + 1,
        ..line
    };
    let head = heads.find(word(line, 1));
    put_signature(signatures, n.heads, says, head, n.used, length);
    put_sorts(line, says.first, sorts, signature_sorts, n.used);
    taken(Numbers {
        heads: n.heads + 1,
        used: n.used + length,
        ..n
    })
}
