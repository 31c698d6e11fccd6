// The alternatives of a head: numbers of signatures.
ghost use Rattle.std.specs.Prelude.{◌+◌, ◌≤◌, ◌<◌, ◌^◌, ◌≡◌, length};
ghost use Rattle.definition.specs.Lists.{from};
ghost use Rattle.definition.specs.Numbers.{refused};
ghost use Rattle.rule_cells.specs.Put.{puts};
ghost use Rattle.rule_heads.specs.Alternatives.{keep, is_function, function_of, permits as mask_permits, is_permitted, alternatives as alternatives_of, is_constructor, some_empty, head_refusal};
ghost use Rattle.rule_heads.specs.Laws.{first_of};

use definition::Refusal;
use rule_cells::put;
use rule_signatures::SignatureKind;
use rule_signatures::given::is_empty;
use rule_signatures::table::{head_at, kind_at, mask_at, read_signature};

fn is_function(signatures: &[usize], head: usize, number: usize) -> bool
    ensures { result ≡ is_function signatures.now head number }
{
    SignatureKind::from(kind_at(signatures, number)).is_function()
        && head_at(signatures, number) == head
}

// The mask has the context's bit.
fn permits(mask: usize, context: usize) -> bool
    requires { context < 8 }
    ensures { result ≡ mask_permits mask context }
{
    (mask >> context) % 2 == 1
}

fn is_permitted(signatures: &[usize], head: usize, context: usize, number: usize) -> bool
    requires { context < 8 }
    ensures { result ≡ is_permitted signatures.now head context number }
{
    !SignatureKind::from(kind_at(signatures, number)).is_function()
        && head_at(signatures, number) == head
        && permits(mask_at(signatures, number), context)
}

// The first function with the head.
fn first_function(signatures: &[usize], declared: usize, head: usize) -> Option<usize>
    ensures { result ≡ first_of (function_of signatures.now declared head) }
{
    (0..declared).find(|number| is_function(signatures, head, *number))
}

// The permitted primitives with the head, from cell `at` of a list on. Answers where they end.
fn add_permitted(
    signatures: &[usize],
    declared: usize,
    head: usize,
    context: usize,
    at: usize,
    found: &mut [usize],
) -> usize
    requires { (context < 8) × (declared ≤ 256) × (at ≤ 1) }
    ensures { (found.new ≡ puts found.old at (keep (is_permitted signatures.now head context) (from 0 declared))) × (result ≡ at + length (keep (is_permitted signatures.now head context) (from 0 declared))) }
{
    let mut end = at;
    for number in 0..declared {
        if is_permitted(signatures, head, context, number) {
            put(found, end, number);
            end += 1;
        }
    }
    end
}

// The alternatives at the front of a list. Answers how many they are.
pub fn find(
    signatures: &[usize],
    declared: usize,
    head: usize,
    context: usize,
    found: &mut [usize],
) -> usize
    requires { (context < 8) × (declared ≤ 256) }
    ensures { (found.new ≡ puts found.old 0 (alternatives_of signatures.now declared head context)) × (result ≡ length (alternatives_of signatures.now declared head context)) }
{
    match first_function(signatures, declared, head) {
        Some(number) => {
            put(found, 0, number);
            add_permitted(signatures, declared, head, context, 1, found)
        }
        None => add_permitted(signatures, declared, head, context, 0, found),
    }
}

// The head's function is a constructor.
pub fn is_constructor(signatures: &[usize], declared: usize, head: usize) -> bool
    ensures { result ≡ is_constructor signatures.now (function_of signatures.now declared head) }
{
    first_function(signatures, declared, head).is_some_and(|number| {
        SignatureKind::from(kind_at(signatures, number)) == SignatureKind::Constructor
    })
}

// One of the alternatives has no sorts, or the exact length 0.
fn some_empty(signatures: &[usize], found: &[usize]) -> bool
    ensures { result ≡ some_empty signatures.now found.now }
{
    found
        .iter()
        .any(|number| is_empty(read_signature(signatures, *number)))
}

// No alternative: 20; an empty one: 8.
pub fn head_refusal(signatures: &[usize], found: &[usize]) -> Result<(), Refusal>
    ensures { refused result ≡ head_refusal signatures.now found.now }
{
    if found.is_empty() {
        return Err(Refusal::UnboundFunction);
    }
    if some_empty(signatures, found) {
        return Err(Refusal::Empty);
    }
    Ok(())
}
