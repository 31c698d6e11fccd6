// Putting bytes and numbers into a buffer. Each function answers the place behind what it put.
ghost use Rattle.std.specs.Prelude.{◌≡◌, ◌+◌, ◌%◌, ◌≤◌, length, drop};
ghost use Rattle.text_words.specs.Put.{decimal, cell_digits, Put};

// A cell's number has at most so many digits.
const CELL_DIGITS: usize = 20;

// Puts a copy of the bytes.
// Stays: a loop. Tried: `copy_from_slice`, by which the library for C calls `memmove`, which it did not need.
pub fn put(out: &mut [u8], at: usize, bytes: &[u8]) -> usize
    requires { at + length bytes.now ≤ length out.old }
    ensures { Put out.old at bytes.now result out.new }
{
    for i in 0..bytes.len() {
        out[at + i] = bytes[i];
    }
    at + bytes.len()
}

// Writes the digits of n to the end of the list. Answers where they begin.
fn digits_of(digits: &mut [u8; CELL_DIGITS], n: usize) -> usize
    ensures upper_bound { result ≤ cell_digits }
    ensures digits_after { drop result digits.new ≡ decimal n }
{
    let mut left = n;
    for i in (0..CELL_DIGITS).rev() {
        digits[i] = b'0' + (left % 10) as u8;
        left /= 10;
        if left == 0 {
            return i;
        }
    }
    0
}

// Puts a number in decimal.
pub fn put_number(out: &mut [u8], at: usize, n: usize) -> usize
    requires { at + length (decimal n) ≤ length out.old }
    ensures { Put out.old at (decimal n) result out.new }
{
    let mut digits = [0u8; CELL_DIGITS];
    let i = digits_of(&mut digits, n);
    put(out, at, &digits[i..])
}
