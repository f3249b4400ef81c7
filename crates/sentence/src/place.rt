// The fixed words before the index: what it counts.
ghost use Rattle.std.specs.Prelude.{◌≡◌, ◌+◌, ◌≤◌, length};
ghost use Rattle.decimal.specs.Decimal.{Stored};
ghost use Rattle.wording.specs.Sentence.{wording};

use decimal::put_words;

// "a match over refusal numbers, with ranges for those that name a loop"
fn place_of(number: u32) -> &'static [u8]
    ensures { result.now ≡ (wording number).place }
{
    match number {
        1..=2 | 24..=25 => b" for byte ",
        3..=4 => b" for core ",
        5..=13 | 18..=19 | 26..=31 => b" for loop ",
        14..=17 => b" for entry ",
        20..=23 => b" for release ",
        _ => b" for place ",
    }
}

// The words of a number, from `at` on.
pub fn put_place(out: &mut [u8], at: usize, number: u32) -> usize
    requires { at + 16 ≤ length out.old }
    ensures { Stored out.old at (wording number).place result out.new }
{
    put_words(out, at, place_of(number))
}
