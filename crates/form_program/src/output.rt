// Writing a line: some text and a number.
ghost use Rattle.std.specs.Prelude.{◌≡◌};
ghost use Rattle.definition.specs.Numbers.{refused};

use definition::Refusal;
use std::io::Stdout;

// A refusal's number, 0 where nothing is refused.
pub fn number_of(checked: Result<(), Refusal>) -> usize
    ensures { result ≡ refused checked }
{
    checked.map_or_else(Refusal::number, |()| 0)
}

// A write that fails is not told.
pub fn say(stdout: Stdout, text: &[u8], number: usize) {
    let _ = stdout.write_all(text);
    let _ = stdout.println(number);
}
