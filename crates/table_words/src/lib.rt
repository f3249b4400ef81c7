// Fixed words of sentences, those between index and value: what would be right, for 1 to 13, of a table or a plan.
#![tactic(auto, unfolding(decimal::specs::Decimal::words, wording::specs::Sentence::wording, wording::specs::Sentence::wordings))]

ghost use Rattle.std.specs.Prelude.{◌≡◌, ◌+◌, ◌≤◌, length};
ghost use Rattle.decimal.specs.Decimal.{Stored};
ghost use Rattle.wording.specs.Sentence.{wording};

use decimal::put_words;

// 1 to 5: the counts and the cores.
fn frame_words(number: u32) -> &'static [u8]
    requires { (1 ≤ number) × (number ≤ 5) }
    ensures { result.now ≡ (wording number).rule }
{
    match number {
        1 =>
            b": the edition must be 1 or 2, in a conversion the one that the table is not in, not ",
        2 =>
            b" onwards: the table must have 4 bytes and 1 more for each core, 12 for each loop (16 in edition 2) and 4 for each entry of slack, not ",
        3 => b" onwards: the number of cores must be 2 to 8, not ",
        4 => b": its label must be 0 to 63 and above the label of the core before, not ",
        _ =>
            b" onwards: the number of loops must be at least 1, on a wish sheet above the number of cores, and at most 16, not ",
    }
}

// 6 to 8: a loop's own numbers.
fn task_words(number: u32) -> &'static [u8]
    requires { (6 ≤ number) × (number ≤ 8) }
    ensures { result.now ≡ (wording number).rule }
{
    match number {
        6 => b": its separation must be 1 to 100,000 ticks, not ",
        7 => b": its budget must be at least 1 tick and at most its separation, not ",
        _ => b": its offset must be at most its separation, not ",
    }
}

// 9 to 13: all loops together, their slack and their bounds.
fn slack_words(number: u32) -> &'static [u8]
    requires { (9 ≤ number) × (number ≤ 13) }
    ensures { result.now ≡ (wording number).rule }
{
    match number {
        9 => b" onwards: the least common multiple of all separations must be 1 to 1,000,000, not ",
        10 =>
            b" onwards: the shares must add up to at least 1 and at most the number of cores times the least common multiple of all separations, not ",
        11 =>
            b" onwards: the slack count must be 0 or, where slack may be offered, the number of loops, not ",
        12 =>
            b": its slack must be compliant if it is offered and, if it is found, the smallest that is compliant, or 0 where loops are no more than cores, not ",
        _ => b": its bound must be at most 16 times its separation, not ",
    }
}

fn words_of(number: u32) -> &'static [u8]
    requires { (1 ≤ number) × (number ≤ 13) }
    ensures { result.now ≡ (wording number).rule }
{
    match number {
        ..=5 => frame_words(number),
        ..=8 => task_words(number),
        _ => slack_words(number),
    }
}

// The words of 1 to 13, from `at` on.
pub fn put_table_words(out: &mut [u8], at: usize, number: u32) -> usize
    requires { (1 ≤ number) × (number ≤ 13) × (at + 160 ≤ length out.old) }
    ensures { Stored out.old at (wording number).rule result out.new }
{
    put_words(out, at, words_of(number))
}
