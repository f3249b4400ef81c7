// The fixed words between index and value: what would be right.
ghost use Rattle.std.specs.Prelude.{◌+◌, ◌≤◌, length};
ghost use Rattle.decimal.specs.Decimal.{Stored};
ghost use Rattle.wording.specs.Sentence.{wording};

use decimal::put_words;
use run_words::put_run_words;
use table_words::put_table_words;

// The words of a number, from `at` on.
pub fn put_rule(out: &mut [u8], at: usize, number: u32) -> usize
    requires { at + 160 ≤ length out.old }
    ensures { Stored out.old at (wording number).rule result out.new }
{
    match number {
        1..=13 => put_table_words(out, at, number),
        14..=31 => put_run_words(out, at, number),
        _ => put_words(
            out,
            at,
            b": the meaning of this number is unknown here, and the value found is ",
        ),
    }
}
