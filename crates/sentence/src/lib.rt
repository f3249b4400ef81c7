// A refusal told as one English sentence. Document 02, §2.
#![tactic(auto)]

mod place;
mod rule;

ghost use Rattle.std.specs.Prelude.{◌≡◌, length};
ghost use Rattle.decimal.specs.Decimal.{Stored};
ghost use Rattle.wording.specs.Sentence.{sentence_of};
ghost use Rattle.wording.specs.Told.{answer_of_composed, length_of_composed, sentence_test, sentence_length, sentence_leaves};

use decimal::{put_decimal, put_said, put_words};
use place::put_place;
use rule::put_rule;
use tasks::{Refusal, Rule};

// A caller who lends so many bytes is never refused.
pub const LONGEST: usize = 256;

// The sentence, from the beginning of an array that has room for every one.
fn compose(text: &mut [u8; LONGEST], number: u32, index: u32, value: u64) -> usize
    ensures { Stored text.old 0 (sentence_of number index value) result text.new }
{
    let named = put_said(text, 0, b"Refusal ", number as u64);
    let placed = put_place(text, named, number);
    let counted = put_decimal(text, placed, index as u64);
    let ruled = put_rule(text, counted, number);
    let found = put_decimal(text, ruled, value);
    put_words(text, found, b".")
}

// "The sentence goes to a lent buffer, its length comes back, and later bytes stay."
pub fn sentence(number: u32, index: u32, value: u64, out: &mut [u8]) -> Result<usize, Refusal>
    ensures { (answer_of_composed result ≡ sentence_test number index value (length out.old))
        × (length_of_composed result ≡ sentence_length number index value (length out.old))
        × (out.new ≡ sentence_leaves number index value out.old) }
{
    let mut text = [0u8; LONGEST];
    let length = compose(&mut text, number, index, value);
    if out.len() < length {
        return Err(Rule::SentenceBufferTooShort.at(0));
    }
    put_words(out, 0, &text[..length]);
    Ok(length)
}
