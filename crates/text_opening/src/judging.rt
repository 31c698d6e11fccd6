// What a line is before it is taken: refusals 50 and 51, and whether it is empty.
ghost use Rattle.std.specs.Prelude.{◌≡◌};
ghost use Rattle.text_words.specs.Parts.{Whole, all_of};
ghost use Rattle.text_known.specs.Known.{Room};
ghost use Rattle.text_opening.specs.Opening.{verdict_from, verdict_of};

use definition::Refusal;
use text_grammar::{Form, forms};
use text_known::{Declared, all_known};
use text_words::parts::Parts;

// A line of `bytes` bytes, by its form: 51 where a name is not known, 50 where there is no form. An empty one is not refused.
pub fn judge(line: Parts, bytes: usize, declared: Declared) -> Result<Form, Refusal>
    requires line { Whole line }
    requires room { Room declared }
    ensures { verdict_from result ≡ verdict_of bytes (all_of declared.entry.sorts) (all_of declared.entry.globals) (all_of declared.entry.heads) declared.entry.signatures.now (all_of line.entry) }
{
    if bytes == 0 {
        return Ok(Form::Malformed);
    }
    let form = forms::form_of(line);
    if !all_known(line, form, declared) {
        return Err(Refusal::Unknown);
    }
    if form == Form::Malformed {
        return Err(Refusal::Malformed);
    }
    Ok(form)
}
