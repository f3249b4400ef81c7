// Text written to a lent buffer: fixed words, and numbers in decimal. Each call answers the place after what it wrote.
#![tactic(auto)]

ghost use Rattle.std.specs.Prelude.{◌+◌, ◌≤◌, length};
ghost use Rattle.decimal.specs.Decimal.{decimal, said, Stored};

// Fixed words, from `at` on.
pub fn put_words(out: &mut [u8], at: usize, words: &[u8]) -> usize
    requires { at + length words.now ≤ length out.old }
    ensures { Stored out.old at words.now result out.new }
{
    let end = at + words.len();
    out[at..end].copy_from_slice(words);
    end
}

// The digits of a number, from `at` on.
pub fn put_decimal(out: &mut [u8], at: usize, value: u64) -> usize
    requires { at + length (decimal value) ≤ length out.old }
    ensures { Stored out.old at (decimal value) result out.new }
{
    if value < 10 {
        out[at] = 48 + value as u8;
        return at + 1;
    }
    let last = put_decimal(out, at, value / 10);
    out[last] = 48 + (value % 10) as u8;
    last + 1
}

// Words and the number after them, from `at` on.
pub fn put_said(out: &mut [u8], at: usize, words: &[u8], value: u64) -> usize
    requires { at + length (said words.now value) ≤ length out.old }
    ensures { Stored out.old at (said words.now value) result out.new }
{
    let from = put_words(out, at, words);
    put_decimal(out, from, value)
}
