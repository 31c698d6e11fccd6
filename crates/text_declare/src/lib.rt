// Lines that declare: sorts, globals, signatures, the context. A function does nothing where the line's form is not its own.
#![tactic(auto)]

ghost use Rattle.std.specs.Prelude.{◌≡◌, ◌*◌, ◌≤◌, length};
ghost use Rattle.std.proofs.lemmas.List.Edits.{sets};
ghost use Rattle.text_words.specs.Parts.{part_at, part_cells};
ghost use Rattle.text_declare.specs.Forms.{order_of};
ghost use Rattle.text_declare.specs.After.{Ready, tables, step_after, store_after};
ghost use Rattle.text_declare.specs.Steps.{small, taken as taken_step, full as full_step, name_cells, sort_step, sort_names_after, global_step, global_names_after, globals_after, context_step};

use definition::Refusal;
use rule_cells::{cell, put, put_all};
use text_definition::Numbers;
use text_grammar::Form;
use text_grammar::forms::CONTEXT_BOUND;
use text_words::names;
use text_words::parts::{PART_CELLS, Parts, between};

pub mod signature;

// A line as it is taken: the number of its refusal, 0 while there is none, and the numbers after it.
// Stays: no Result, since the functions below take a step of any number, and leave it as it is where the form is not their own.
#[derive(Clone, Copy)]
pub struct Step {
    pub refused: usize,
    pub numbers: Numbers,
}

// The forms of a line by their order in the grammar.
// Stays: numbers as parameters and no Form, since the functions below take any number, and `step_after` is of any.
pub const SORT: usize = Form::Sort as usize;

pub const GLOBAL: usize = Form::Global as usize;

pub const CONTEXT: usize = Form::Context as usize;

// Largest sizes.
const MAX_SORTS: usize = 256;

const MAX_GLOBALS: usize = 256;

// A form's place in the order of the grammar.
pub fn order_of(f: Form) -> usize
    ensures { result ≡ order_of f }
{
    f as usize
}

fn taken(numbers: Numbers) -> Step
    ensures { result ≡ taken_step numbers }
{
    Step {
        refused: 0,
        numbers,
    }
}

// A table is full: 10.
fn full(numbers: Numbers) -> Step
    ensures { result ≡ full_step numbers }
{
    Step {
        refused: Refusal::NoRoom.number(),
        numbers,
    }
}

// Word i of a line.
fn word<'a>(line: Parts<'a>, i: usize) -> &'a [u8]
    requires { i ≤ small }
    ensures { result.now ≡ part_at line.entry.text.now line.entry.table.now i }
{
    between(
        line.text,
        cell(line.table, i * PART_CELLS),
        cell(line.table, i * PART_CELLS + 1),
    )
}

// Part n of a table becomes the line's name, which is its word 1.
fn put_name(table: &mut [usize], n: usize, line: Parts)
    requires { n ≤ small }
    ensures { table.new ≡ sets table.old (n * part_cells) (name_cells line.entry.table.now) }
{
    put_all(
        table,
        n * PART_CELLS,
        &[cell(line.table, 2), cell(line.table, 3)],
    );
}

pub fn declare_sort(form: usize, line: Parts, step: Step, sort_names: &mut [usize]) -> Step
    ensures value { result ≡ sort_step form step }
    ensures sort_names_after { sort_names.new ≡ sort_names_after form step line.entry.table.now sort_names.old }
{
    let n = step.numbers;
    if form != SORT {
        return step;
    }
    if MAX_SORTS <= n.sorts {
        return full(n);
    }
    put_name(sort_names, n.sorts, line);
    taken(Numbers {
        sorts: n.sorts + 1,
        ..n
    })
}

// A global's cell is its sort + 1.
#[tactic(auto, using(text_words::specs::Laws::Table::find_within))]
pub fn declare_global(
    form: usize,
    line: Parts,
    step: Step,
    sort_names: &[usize],
    global_names: &mut [usize],
    globals: &mut [usize],
) -> Step
    requires { (step.numbers.sorts ≤ small) × (step.numbers.sorts * part_cells ≤ length sort_names.now) }
    ensures value { result ≡ global_step form step }
    ensures global_names_after { global_names.new ≡ global_names_after form step line.entry.table.now global_names.old }
    ensures globals_after { globals.new ≡ globals_after form step line.entry.text.now line.entry.table.now sort_names.now globals.old }
{
    let n = step.numbers;
    if form != GLOBAL {
        return step;
    }
    if MAX_GLOBALS <= n.globals {
        return full(n);
    }
    let sorts = Parts {
        table: sort_names,
        count: n.sorts,
        ..line
    };
    put_name(global_names, n.globals, line);
    put(globals, n.globals, sorts.find(word(line, 2)) + 1);
    taken(Numbers {
        globals: n.globals + 1,
        ..n
    })
}

#[tactic(auto, using(text_words::specs::Laws::Table::unwrap_below))]
pub fn declare_context(form: usize, line: Parts, step: Step) -> Step
    ensures { result ≡ context_step form step line.entry.text.now line.entry.table.now }
{
    if form != CONTEXT {
        return step;
    }
    taken(Numbers {
        context: names::number_below(word(line, 1), CONTEXT_BOUND).unwrap_or(CONTEXT_BOUND),
        ..step.numbers
    })
}

// Takes a line that declares; a line of another form changes nothing.
// Still apart: the lists that are written. A struct of them is to be tried (docs/DESIGN-PASS.md).
pub fn declare_line(
    form: usize,
    line: Parts,
    step: Step,
    sort_names: &mut [usize],
    global_names: &mut [usize],
    head_names: &mut [usize],
    signatures: &mut [usize],
    signature_sorts: &mut [usize],
    globals: &mut [usize],
) -> Step
    requires { Ready step line.count sort_names.old global_names.old head_names.old signatures.old }
    ensures value { result ≡ step_after form step line.entry.text.now line.entry.table.now line.entry.count (tables sort_names.old global_names.old head_names.old signatures.old signature_sorts.old globals.old) }
    ensures globals_after { tables sort_names.new global_names.new head_names.new signatures.new signature_sorts.new globals.new ≡ store_after form step line.entry.text.now line.entry.table.now line.entry.count (tables sort_names.old global_names.old head_names.old signatures.old signature_sorts.old globals.old) }
{
    let a = declare_sort(form, line, step, sort_names);
    let b = declare_global(form, line, a, sort_names, global_names, globals);
    let c = signature::declare_signature(
        form,
        line,
        b,
        sort_names,
        head_names,
        signatures,
        signature_sorts,
    );
    declare_context(form, line, c)
}
