// One step of a call: the refusals of an atom or an action, and the lists with what it gives.
ghost use Rattle.std.specs.Prelude.{ℕ, ◌≤◌, ◌<◌, ◌≡◌, cond, List, length};
ghost use Rattle.definition.specs.Numbers.{refused};
ghost use Rattle.rule_cells.specs.Put.{puts};
ghost use Rattle.rule_heads.specs.Written.{Room, Written};
ghost use Rattle.rule_steps.specs.Ask.{Source, ask as ask_of};
ghost use Rattle.rule_steps.specs.Given.{given_on, form_refusal, early_refusal, room_for, origin_of};
ghost use Rattle.rule_steps.specs.Step.{seen_tables, seen_source, state, found_for, asked_by, Steps, Adding, Stepped};

use crate::ask::{ask, place_of};
use crate::room::room_for;
use crate::{Form, Lengths, Work};
use definition::{Counts, Refusal};
use rule_cells::Origin;
use rule_heads::{
    Cursor, Found, MAX_FOUND, find, head_refusal, write_application, write_equality, write_nothing,
};
use rule_lent::Tables;
use rule_lent::calls::Listed;
use rule_ranges::enter;
use rule_signatures::given::some_unbound;
use rule_signatures::{Scope, Statement};

// The most arguments, with the one that an action adds.
const MAX_ARGS: usize = 2049;

// What is asked, with its lists: the alternatives of its head, its arguments, the terms that enter the range.
#[derive(Clone, Copy)]
struct Asking<'a> {
    work: Work,
    found: &'a [usize],
    statement: Statement<'a>,
    bound: &'a [usize],
}

// The alternatives of a form's head at the front of a list. Answers how many they are.
fn find_for(form: Form, tables: Tables, found: &mut [usize]) -> usize
    requires { (tables.lent.context < 8) × (tables.lent.signatures ≤ 256) }
    ensures { (found.new ≡ puts found.old 0 (found_for tables.entry.signatures.now tables.entry.lent.signatures tables.entry.lent.context form)) × (result ≡ length (found_for tables.entry.signatures.now tables.entry.lent.signatures tables.entry.lent.context form)) }
{
    let lent = tables.lent;
    match form {
        Form::Nothing | Form::Equality(_, _) => 0,
        Form::Application(head) => find(
            tables.signatures,
            lent.signatures,
            head,
            lent.context,
            found,
        ),
    }
}

// 20 and 8.
fn form_refusal(form: Form, tables: Tables, found: &[usize]) -> Result<(), Refusal>
    ensures { (terms : List ℕ) → found.now ≡ found_for tables.entry.signatures.now tables.entry.lent.signatures tables.entry.lent.context form → refused result ≡ form_refusal (seen_tables tables.entry terms) form }
{
    match form {
        Form::Nothing | Form::Equality(_, _) => Ok(()),
        Form::Application(_) => head_refusal(tables.signatures, found),
    }
}

// 21, 7, 20, 8, 9, in this order.
fn early_refusal(asking: Asking, tables: Tables, terms: &[usize]) -> Result<(), Refusal>
    ensures { asking.entry.found.now ≡ found_for tables.entry.signatures.now tables.entry.lent.signatures tables.entry.lent.context asking.entry.work.form → refused result ≡ early_refusal (seen_tables tables.entry terms.now) (asked_by asking.entry) }
{
    let work = asking.work;
    if work.forbidden {
        return Err(Refusal::SetConstructorDisallowed);
    }
    if work.miscounted {
        return Err(Refusal::Miscounted);
    }
    form_refusal(work.form, tables, asking.found)?;
    let globals = tables.globals;
    if some_unbound(Scope { terms, globals }, asking.statement.args) {
        return Err(Refusal::Unbound);
    }
    Ok(())
}

// The constraints by form: literals and globals alone, with an Eq, or with a head's.
fn write(
    asking: Asking,
    from: Cursor,
    tables: Tables,
    terms: &[usize],
    records: &mut [usize],
    side: &mut [usize],
    tops: &mut [usize],
) -> Cursor
    requires { Room 20000 from asking.found.now asking.statement.args.now }
    ensures { asking.entry.found.now ≡ found_for tables.entry.signatures.now tables.entry.lent.signatures tables.entry.lent.context asking.entry.work.form → Written asking.entry.statement.origin from (given_on (seen_tables tables.entry terms.now) asking.entry.statement.args.now asking.entry.work.form) records.old records.new side.old side.new tops.old tops.new result }
{
    let globals = tables.globals;
    let scope = Scope { terms, globals };
    let statement = asking.statement;
    match asking.work.form {
        Form::Nothing => write_nothing(scope, statement, from, records, tops),
        Form::Equality(x, y) => write_equality(scope, statement, x, y, from, records, tops),
        Form::Application(_) => {
            let found = Found {
                signatures: tables.signatures,
                signature_sorts: tables.signature_sorts,
                numbers: asking.found,
            };
            write_application(found, scope, statement, from, records, side, tops)
        }
    }
}

// 10, or the counts after the step.
fn settled(lengths: Lengths, after: Counts) -> Result<Counts, Refusal>
    ensures { result ≡ cond (room_for lengths after) (Ok after) (Err Refusal.NoRoom) }
{
    if room_for(lengths, after) {
        Ok(after)
    } else {
        Err(Refusal::NoRoom)
    }
}

// Its refusal, or all that an atom or an action gives, and the terms that enter the range, added to the lists.
// Still apart: the lists that are written. A struct of them is to be tried (docs/DESIGN-PASS.md).
fn add(
    asking: Asking,
    lengths: Lengths,
    counts: Counts,
    tables: Tables,
    terms: &[usize],
    records: &mut [usize],
    side: &mut [usize],
    tops: &mut [usize],
    range: &mut [usize],
    marks: &mut [usize],
) -> Result<Counts, Refusal>
    requires { Adding counts asking.work.fresh asking.found.now asking.statement.args.now }
    ensures { (i : ℕ) (c : Source) → asking.entry.found.now ≡ found_for tables.entry.signatures.now tables.entry.lent.signatures tables.entry.lent.context asking.entry.work.form → asked_by asking.entry ≡ ask_of (seen_tables tables.entry terms.now) counts.terms c i → asking.entry.statement.origin ≡ origin_of c i → Stepped (seen_tables tables.entry terms.now) lengths c (state counts records.old side.old tops.old range.old marks.old) i records.new side.new tops.new range.new marks.new result }
{
    early_refusal(asking, tables, terms)?;
    let from = Cursor {
        records: counts.records,
        side: counts.side,
        tops: counts.tops,
    };
    let end = write(asking, from, tables, terms, records, side, tops);
    let ranged = enter(
        asking.bound,
        asking.statement.origin.place,
        counts.range,
        range,
        marks,
    );
    let after = Counts {
        records: end.records,
        side: end.side,
        tops: end.tops,
        range: ranged,
        terms: counts.terms + asking.work.fresh,
        ..counts
    };
    settled(lengths, after)
}

// Atom or action i of the call: its refusal, or the counts and the lists with what it gives.
// Still apart: the lists that are written, as in `add`.
pub fn step(
    listed: Listed,
    i: usize,
    tables: Tables,
    terms: &[usize],
    lengths: Lengths,
    counts: Counts,
    records: &mut [usize],
    side: &mut [usize],
    tops: &mut [usize],
    range: &mut [usize],
    marks: &mut [usize],
) -> Result<Counts, Refusal>
    requires { Steps tables.lent.signatures tables.lent.context tables.arguments.now counts }
    ensures { Stepped (seen_tables tables.entry terms.now) lengths (seen_source listed tables.entry) (state counts records.old side.old tops.old range.old marks.old) i records.new side.new tops.new range.new marks.new result }
{
    let mut args = [0usize; MAX_ARGS];
    let mut bound = [0usize; MAX_ARGS];
    let mut found = [0usize; MAX_FOUND];
    let work = ask(listed, i, tables, counts.terms, &mut args, &mut bound);
    let alternatives = find_for(work.form, tables, &mut found);
    let place = place_of(tables.calls, i);
    let asking = Asking {
        work,
        found: &found[..alternatives],
        statement: Statement {
            args: &args[..work.args],
            origin: Origin { place },
        },
        bound: &bound[..work.bound],
    };
    add(
        asking, lengths, counts, tables, terms, records, side, tops, range, marks,
    )
}
