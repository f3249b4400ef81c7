// Fixed words of sentences, those between index and value: what would be right, for 14 to 31, of a log, the engine, lent buffers, wishes,
// deadlines and the way between the editions.
#![tactic(auto, unfolding(decimal::specs::Decimal::words, wording::specs::Sentence::wording, wording::specs::Sentence::wordings))]

ghost use Rattle.std.specs.Prelude.{◌≡◌, ◌+◌, ◌≤◌, length};
ghost use Rattle.decimal.specs.Decimal.{Stored};
ghost use Rattle.wording.specs.Sentence.{wording};

use decimal::put_words;

// 14 to 17: a log and its entries.
fn log_words(number: u32) -> &'static [u8]
    requires { (14 ≤ number) × (number ≤ 17) }
    ensures { result.now ≡ (wording number).rule }
{
    match number {
        14 => b" onwards: the log must have 2 bytes and 9 more for each entry that it counts, not ",
        15 => b": its tick must be at most 1,000,000,000, not ",
        16 => b" onwards: the lent answer must have at least 8 bytes for each entry, not ",
        _ => b": its tick must be at least the largest tick before it, not ",
    }
}

// 18 to 23: the engine's state and a release.
fn engine_words(number: u32) -> &'static [u8]
    requires { (18 ≤ number) × (number ≤ 23) }
    ensures { result.now ≡ (wording number).rule }
{
    match number {
        18 => b" onwards: the engine's state must be sound, which it is not at tick ",
        19 => b" onwards: the clock must be below 4,000,000,000 for a release or a step, not ",
        20 => b": it must be of a loop in the table, not of loop ",
        21 => b": its demand must be at least 1 tick and at most its loop's budget, not ",
        22 =>
            b": the ticks since its loop's last taken release must be at least the loop's separation, not ",
        _ => b": its loop must hold fewer than 16 unfinished jobs, not ",
    }
}

// 24 and 25: what is lent to be written to.
fn buffer_words(number: u32) -> &'static [u8]
    requires { (24 ≤ number) × (number ≤ 25) }
    ensures { result.now ≡ (wording number).rule }
{
    match number {
        24 => b" onwards: the lent buffer must be at least as long as what is to be written, not ",
        _ =>
            b" onwards: the buffer lent for a sentence must be at least as long as the sentence, for which 256 bytes are always enough, not ",
    }
}

// 26 and 27: a loop's own wish, and all wishes together.
fn wish_words(number: u32) -> &'static [u8]
    requires { (26 ≤ number) × (number ≤ 27) }
    ensures { result.now ≡ (wording number).rule }
{
    match number {
        26 => b": its wish must be at least its budget and at most 16 times its separation, not ",
        _ =>
            b" onwards: whole offsets and compliant slack must exist with every bound at most its wish, and the number of such solutions is ",
    }
}

// 28 to 31: a loop's deadline; offset, deadline and the number of loops on the way from one edition to the other.
fn deadline_words(number: u32) -> &'static [u8]
    requires { (28 ≤ number) × (number ≤ 31) }
    ensures { result.now ≡ (wording number).rule }
{
    match number {
        28 => b": its deadline must be 1 to 1,600,000 ticks, not ",
        29 => b": on the way to edition 2, its offset must be at least 1 tick, not ",
        30 => b": on the way to edition 1, its deadline must equal its offset, not ",
        _ =>
            b" onwards: for a conversion the number of loops must be above the number of cores, not ",
    }
}

fn words_of(number: u32) -> &'static [u8]
    requires { (14 ≤ number) × (number ≤ 31) }
    ensures { result.now ≡ (wording number).rule }
{
    match number {
        ..=17 => log_words(number),
        ..=23 => engine_words(number),
        ..=25 => buffer_words(number),
        ..=27 => wish_words(number),
        _ => deadline_words(number),
    }
}

// The words of 14 to 31, from `at` on.
pub fn put_run_words(out: &mut [u8], at: usize, number: u32) -> usize
    requires { (14 ≤ number) × (number ≤ 31) × (at + 160 ≤ length out.old) }
    ensures { Stored out.old at (wording number).rule result out.new }
{
    put_words(out, at, words_of(number))
}
