// What an atom or an action asks: its form, its arguments, the terms that enter the range.
ghost use Rattle.std.specs.Prelude.{ℕ, ◌+◌, ◌*◌, ◌≤◌, ◌≡◌, true, false, List, ◌++◌, ◌∷◌, [], length, get_or};
ghost use Rattle.rule_cells.specs.Put.{puts};
ghost use Rattle.rule_lent.specs.Call.{call_cells, call_kind, head_of as head_at, x_of, y_of};
ghost use Rattle.rule_lent.specs.Lend.{asked};
ghost use Rattle.rule_steps.specs.Ask.{atom_ask, action_ask, ask as ask_of};
ghost use Rattle.rule_steps.specs.Step.{seen_tables, seen_source, Buffers, Asked, applied as applied_of, equal as equal_of};

use crate::{Form, Work};
use form_symbols::SymbolGen;
use rule_cells::{cell, part, put, put_all};
use rule_heads::is_constructor;
use rule_lent::Tables;
use rule_lent::calls::{
    Action, Atom, COUNT, HEAD, Listed, PLACE, START, X, Y, action_at, atom_at, call_cell,
};

pub fn head_of(calls: &[usize], i: usize) -> usize
    ensures { result ≡ get_or calls.now (i * call_cells + 1) 0 }
{
    call_cell(calls, i, HEAD)
}

pub fn place_of(calls: &[usize], i: usize) -> usize
    ensures { result ≡ get_or calls.now (i * call_cells + 6) 0 }
{
    call_cell(calls, i, PLACE)
}

// A head applied to so many arguments.
fn applied(head: usize, args: usize, bound: usize) -> Work
    ensures { result ≡ applied_of head args bound 0 false }
{
    Work {
        form: Form::Application(head),
        args,
        bound,
        miscounted: args == 0,
        ..Work::default()
    }
}

// Two terms are equal.
fn equal(x: usize, y: usize, args: usize, bound: usize) -> Work
    ensures { result ≡ equal_of x y args bound false }
{
    Work {
        form: Form::Equality(x, y),
        args,
        bound,
        ..Work::default()
    }
}

// The arguments and one more at the front of a list. Answers how many they are.
fn put_with(own: &[usize], last: usize, args: &mut [usize]) -> usize
    requires { length own.now ≤ 2048 }
    ensures { (args.new ≡ puts args.old 0 (own.now ++ last ∷ [])) × (result ≡ length own.now + 1) }
{
    let n = own.len();
    put_all(args, 0, own);
    put(args, n, last);
    n + 1
}

// Atom i of a query: all its argument terms enter the range.
fn ask_atom(
    calls: &[usize],
    i: usize,
    own: &[usize],
    args: &mut [usize],
    bound: &mut [usize],
) -> Work
    requires { Buffers own.now args.old bound.old }
    ensures { Asked (atom_ask (head_at (asked true calls.now) i) own.now (call_kind (asked true calls.now) i)) args.new bound.new result }
{
    let n = own.len();
    put_all(args, 0, own);
    put_all(bound, 0, own);
    match atom_at(calls, i).unwrap_or(Atom::Equality) {
        Atom::Applies => applied(head_of(calls, i), n, n),
        Atom::Equality => Work {
            miscounted: n != 2,
            ..equal(cell(own, 0), cell(own, 1), n, n)
        },
    }
}

// Action i. A variable that it binds enters the range.
fn ask_action(
    tables: Tables,
    i: usize,
    terms: usize,
    own: &[usize],
    args: &mut [usize],
    bound: &mut [usize],
) -> Work
    requires buffers { Buffers own.now args.old bound.old }
    requires terms_bound { terms ≤ 256 }
    ensures { (fixed : List ℕ) → Asked (action_ask (seen_tables tables.entry fixed) terms (head_at (asked false tables.entry.calls.now) i) own.now (x_of (asked false tables.entry.calls.now) i) (y_of (asked false tables.entry.calls.now) i) (call_kind (asked false tables.entry.calls.now) i)) args.new bound.new result }
{
    let calls = tables.calls;
    let head = head_of(calls, i);
    let x = call_cell(calls, i, X);
    let y = call_cell(calls, i, Y);
    match action_at(calls, i).unwrap_or(Action::Panic) {
        Action::Let => {
            let n = put_with(own, x, args);
            put(bound, 0, x);
            applied(head, n, 1)
        }
        Action::Set => {
            let n = put_with(own, x, args);
            Work {
                forbidden: is_constructor(tables.signatures, tables.lent.signatures, head),
                ..applied(head, n, 0)
            }
        }
        Action::Change => {
            let symbols = SymbolGen { next: terms };
            let fresh = symbols.fresh();
            let n = put_with(own, fresh.taken, args);
            Work {
                fresh: 1,
                ..applied(head, n, 0)
            }
        }
        Action::Union => {
            put(args, 0, x);
            put(args, 1, y);
            equal(x, y, 2, 0)
        }
        Action::LetAtomTerm => {
            put(args, 0, y);
            put(bound, 0, x);
            equal(x, y, 1, 1)
        }
        Action::Panic => Work::default(),
    }
}

// Atom or action i of the call.
pub fn ask(
    listed: Listed,
    i: usize,
    tables: Tables,
    terms: usize,
    args: &mut [usize],
    bound: &mut [usize],
) -> Work
    requires buffers { Buffers tables.arguments.now args.old bound.old }
    requires terms_bound { terms ≤ 256 }
    ensures { (fixed : List ℕ) → Asked (ask_of (seen_tables tables.entry fixed) terms (seen_source listed tables.entry) i) args.new bound.new result }
{
    let start = call_cell(tables.calls, i, START);
    let count = call_cell(tables.calls, i, COUNT);
    let own = part(tables.arguments, start, count);
    match listed {
        Listed::Atoms => ask_atom(tables.calls, i, own, args, bound),
        Listed::Actions => ask_action(tables, i, terms, own, args, bound),
    }
}
