// A line as it is opened: its words, what it is, and what it declares.
#![tactic(auto)]

ghost use Rattle.std.specs.Prelude.{◌≡◌};
ghost use Rattle.text_declare.specs.After.{tables};
ghost use Rattle.text_opening.specs.Opening.{Openable, Opens, begun, verdict_from};

use definition::Refusal;
use judging::judge;
use text_declare::{Step, declare_line, order_of};
use text_definition::Numbers;
use text_grammar::Form;
use text_known::Declared;
use text_words::parts::{Parts, between, split_words};

mod judging;

// A line's form, Malformed where nothing is left to take; how many words it has; its refusal, or the numbers after what it
// declares.
// Stays: no Result, since `Opens` promises the form, the words and the numbers of a refused line too.
#[derive(Clone, Copy)]
pub struct Opened {
    pub form: Form,
    pub count: usize,
    pub step: Step,
}

// Where a line begins: nothing is taken of one that is refused.
fn begun(verdict: Result<Form, Refusal>, numbers: Numbers) -> (Form, Step)
    ensures form { result.0 ≡ (verdict_from verdict).form }
    ensures step { result.1 ≡ begun (verdict_from verdict) numbers }
{
    let (form, refused) = match verdict {
        Ok(form) => (form, 0),
        Err(refusal) => (Form::Malformed, refusal.number()),
    };
    (form, Step { refused, numbers })
}

// The line from `start` up to `end`. The places of its words are left at the front of `words`.
// Still apart: the lists that are written. A struct of them is to be tried (docs/DESIGN-PASS.md).
pub fn open_line(
    text: &[u8],
    start: usize,
    end: usize,
    n: Numbers,
    words: &mut [usize],
    sort_names: &mut [usize],
    global_names: &mut [usize],
    head_names: &mut [usize],
    signatures: &mut [usize],
    signature_sorts: &mut [usize],
    globals: &mut [usize],
) -> Opened
    requires { Openable text.now start end n words.old sort_names.old global_names.old head_names.old signatures.old }
    ensures { Opens text.now start end n words.old (tables sort_names.old global_names.old head_names.old signatures.old signature_sorts.old globals.old) result.form result.count result.step words.new (tables sort_names.new global_names.new head_names.new signatures.new signature_sorts.new globals.new) }
{
    let count = split_words(between(text, start, end), start, words);
    let line = Parts {
        text,
        table: words,
        count,
    };
    let declared = Declared {
        sorts: Parts {
            table: sort_names,
            count: n.sorts,
            ..line
        },
        globals: Parts {
            table: global_names,
            count: n.globals,
            ..line
        },
        heads: Parts {
            table: head_names,
            count: n.heads,
            ..line
        },
        signatures,
    };
    let (form, begun) = begun(judge(line, end - start, declared), n);
    let step = declare_line(
        order_of(form),
        line,
        begun,
        sort_names,
        global_names,
        head_names,
        signatures,
        signature_sorts,
        globals,
    );
    Opened { form, count, step }
}
