// Naming the terms of a line: each has a number by first appearance; a new one's name and cells go behind those that there are.
ghost use Rattle.std.specs.Prelude.{◌+◌, ◌*◌, ◌<◌, ◌≤◌, ◌≡◌, [], ◌∷◌, length, get_or};
ghost use Rattle.std.proofs.lemmas.List.Edits.{sets};
ghost use Rattle.definition.specs.Sizes.{max_terms};
ghost use Rattle.rule_signatures.specs.Tables.{term_cells};
ghost use Rattle.text_words.specs.Names.{sort_part};
ghost use Rattle.text_words.specs.Parts.{part_cells, between as part_between, find as first_part, Whole, all_of};
ghost use Rattle.text_definition.specs.Say.{cells_of};
ghost use Rattle.text_terms.specs.Shape.{Shaped};
ghost use Rattle.text_terms.specs.Named.{naming_by, NamesFit, Room, RangeNamed, LineNamed, Unnamed};

use crate::shape::{Shape, Words};
use rule_cells::{put, put_all};
use rule_signatures::TERM_CELLS;
use text_definition::Declared;
use text_words::names;
use text_words::parts::{PART_CELLS, Parts, between, put_part};

// The most terms.
pub const MAX_TERMS: usize = 256;

// The number of the sort that a literal begins with.
#[tactic(auto, using(text_words::specs::Laws::Names::sort_part_lem))]
fn literal_sort(sorts: Parts, literal: &[u8]) -> usize
    requires { Whole sorts }
    ensures { result ≡ first_part (sort_part literal.now) (all_of sorts.entry) }
{
    sorts.find(between(literal, 0, names::find_byte(literal, 0, b':')))
}

// A term's cells: a variable, a global with its number, a literal with its sort.
#[tactic(auto, using(text_words::specs::Laws::Names::to_end), unfolding(text_definition::specs::Say::cells_of))]
fn cells_of(text: &[u8], declared: Declared, w: &[u8]) -> [usize; 2]
    requires { NamesFit declared }
    ensures { result ≡ cells_of (naming_by text.now declared.entry) w.now }
{
    match w {
        [b'@', rest @ ..] => {
            let globals = Parts {
                text,
                table: declared.global_names,
                count: declared.numbers.globals,
            };
            [1, globals.find(rest)]
        }
        [b'=', rest @ ..] => {
            let sorts = Parts {
                text,
                table: declared.sort_names,
                count: declared.numbers.sorts,
            };
            [2, literal_sort(sorts, rest)]
        }
        _ => [0, 0],
    }
}

// A new term's name and cells, behind those of k terms.
fn add_term(
    text: &[u8],
    start: usize,
    end: usize,
    declared: Declared,
    k: usize,
    term_names: &mut [usize],
    terms: &mut [usize],
)
    requires names_fit { NamesFit declared }
    requires part_cells_in_bounds { k * part_cells + 1 < length term_names.old }
    requires few { k ≤ max_terms }
    ensures term_names_after { term_names.new ≡ sets term_names.old (k * part_cells) (start ∷ end ∷ []) }
    ensures terms_after { terms.new ≡ sets terms.old (k * term_cells) (cells_of (naming_by text.now declared.entry) (part_between text.now start end)) }
{
    put_part(term_names, k, start, end);
    let cells = cells_of(text, declared, between(text, start, end));
    put_all(terms, k * TERM_CELLS, &cells);
}

// Word i, behind k terms. Answers how many there are then, one more than there may be where it is one too many.
// Stays: a number, since `LineNamed` of the public `name_line` says it of too many terms too.
fn name_word(
    line: Parts,
    i: usize,
    declared: Declared,
    k: usize,
    term_names: &mut [usize],
    terms: &mut [usize],
    numbers: &mut [usize],
) -> usize
    requires part_cells_in_bounds { i * part_cells + 1 < length line.table.now }
    requires room { Room declared k term_names.old }
    ensures { RangeNamed line.entry i (i + 1) declared.entry k term_names.old terms.old numbers.old result term_names.new terms.new numbers.new }
{
    let start = line.table[i * PART_CELLS];
    let end = line.table[i * PART_CELLS + 1];
    let known = Parts {
        text: line.text,
        table: term_names,
        count: k,
    };
    let number = known.find(between(line.text, start, end));
    put(numbers, i, number);
    if number < k {
        return k;
    }
    if MAX_TERMS <= k {
        return k + 1;
    }
    add_term(line.text, start, end, declared, k, term_names, terms);
    k + 1
}

// Some words, behind k terms.
fn name_range(
    line: Parts,
    words: Words,
    declared: Declared,
    k: usize,
    term_names: &mut [usize],
    terms: &mut [usize],
    numbers: &mut [usize],
) -> usize
    requires start_le_end { (words.start ≤ words.end) × (words.end * part_cells ≤ length line.table.now) }
    requires room { Room declared k term_names.old }
    ensures { RangeNamed line.entry words.start words.end declared.entry k term_names.old terms.old numbers.old result term_names.new terms.new numbers.new }
{
    let mut named = k;
    for i in words.start..words.end {
        named = name_word(line, i, declared, named, term_names, terms, numbers);
        if MAX_TERMS < named {
            return named;
        }
    }
    named
}

// The terms of a line.
pub fn name_line(
    line: Parts,
    shape: Shape,
    declared: Declared,
    term_names: &mut [usize],
    terms: &mut [usize],
    numbers: &mut [usize],
) -> usize
    requires shaped { Shaped shape line.count }
    requires part_cells_in_bounds { line.count * part_cells ≤ length line.table.now }
    requires room { Room declared declared.numbers.terms term_names.old }
    ensures { LineNamed line.entry shape declared.entry term_names.old terms.old numbers.old result term_names.new terms.new numbers.new }
{
    let k = name_range(
        line,
        shape.bound,
        declared,
        declared.numbers.terms,
        term_names,
        terms,
        numbers,
    );
    if MAX_TERMS < k {
        return k;
    }
    let others = Words {
        start: shape.args.start,
        end: line.count,
    };
    name_range(line, others, declared, k, term_names, terms, numbers)
}

// The fresh terms have no names.
pub fn name_fresh(term_names: &mut [usize], from: usize, to: usize)
    requires { (from ≤ to) × (to ≤ max_terms) × (max_terms * part_cells ≤ length term_names.old) }
    ensures { Unnamed term_names.old from to term_names.new }
{
    for i in from..to {
        put_part(term_names, i, 0, 0);
    }
}
