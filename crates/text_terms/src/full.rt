// Refusals of a line with more terms, or more words for them, than there may be.
ghost use Rattle.std.specs.Prelude.{◌-◌, ◌<◌, ◌≤◌, ◌≡◌, cond, is_some};
ghost use Rattle.definition.specs.Numbers.{refused};
ghost use Rattle.definition.specs.Refusal.{first_given};
ghost use Rattle.rule_heads.specs.Alternatives.{alternatives, head_refusal};
ghost use Rattle.text_terms.specs.Shape.{fitting};
ghost use Rattle.text_terms.specs.Call.{too_many_on};

use crate::shape::Shape;
use crate::terms::MAX_TERMS;
use definition::Refusal;
use rule_cells::part;
use rule_heads::{MAX_FOUND, find, head_refusal, is_constructor};
use rule_lent::calls::Action;
use text_definition::Declared;

// The kind of `set`.
const SET: usize = Action::Set as usize;

const MAX_ARGUMENTS: usize = 2048;

// The head's own refusal, else that there is no room.
fn head_or_room(signatures: &[usize], n: usize, context: usize, head: usize) -> Result<(), Refusal>
    requires { (context < 8) × (n ≤ 256) }
    ensures { refused result ≡ first_given (head_refusal signatures.now (alternatives signatures.now n head context)) 10 }
{
    let mut room = [0usize; MAX_FOUND];
    let k = find(signatures, n, head, context, &mut room);
    head_refusal(signatures, part(&room, 0, k))?;
    Err(Refusal::NoRoom)
}

// A constructor that is set, and the head's own refusal, come before that there is no room.
fn too_many(declared: Declared, kind: usize, headed: bool, head: usize) -> Result<(), Refusal>
    requires { (declared.numbers.context < 8) × (declared.numbers.heads ≤ 256) }
    ensures { refused result ≡ too_many_on declared.entry.signatures.now declared.entry.numbers.heads declared.entry.numbers.context kind headed head }
{
    if !headed {
        return Err(Refusal::NoRoom);
    }
    let signatures = declared.signatures;
    let heads = declared.numbers.heads;
    if kind == SET && is_constructor(signatures, heads, head) {
        return Err(Refusal::SetConstructorDisallowed);
    }
    head_or_room(signatures, heads, declared.numbers.context, head)
}

// The terms and the words for them are not too many.
pub fn full_refusal(
    shape: Shape,
    terms: usize,
    count: usize,
    head: usize,
    declared: Declared,
) -> Result<(), Refusal>
    requires rest_le_count { shape.args.start ≤ count }
    requires context_bound { (declared.numbers.context < 8) × (declared.numbers.heads ≤ 256) }
    ensures { refused result ≡ cond (fitting terms (count - shape.args.start)) 0 (too_many_on declared.entry.signatures.now declared.entry.numbers.heads declared.entry.numbers.context shape.kind (is_some shape.head) head) }
{
    if terms <= MAX_TERMS && count - shape.args.start <= MAX_ARGUMENTS {
        return Ok(());
    }
    too_many(declared, shape.kind, shape.head.is_some(), head)
}
