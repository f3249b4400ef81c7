// Lines about a table or a log in the making.
ghost use Rattle.test_tables.specs.Drafts.{Within};

use test_script::line::Line;
use test_script::say;
use test_tables::draft::Draft;

// `loops N T C Y` or `loops N T C Y D`: N loops.
fn loops(draft: &mut Draft, mut words: Line)
    ensures { Within draft.old → Within draft.new }
{
    let count = words.number();
    draft.loops(count, words);
}

// `entry TICK LOOP DEMAND`.
fn entry(draft: &mut Draft, mut words: Line)
    ensures { Within draft.old → Within draft.new }
{
    draft.push4(words.number32());
    draft.push(words.number8());
    draft.push4(words.number32());
}

// `fill N B`: N times the byte B.
fn fill(draft: &mut Draft, mut words: Line)
    ensures { Within draft.old → Within draft.new }
{
    let count = words.number();
    draft.fill(count, words.number8());
}

// `new B ..`: the draft has these bytes alone.
fn begin(draft: &mut Draft, words: Line)
    ensures { Within draft.new }
{
    *draft = Draft::new();
    draft.bytes(words);
}

pub fn act(draft: &mut Draft, what: &[u8], words: Line)
    ensures { Within draft.old → Within draft.new }
{
    match what {
        b"new" => begin(draft, words),
        b"bytes" => draft.bytes(words),
        b"numbers" => draft.numbers(words),
        b"loops" => loops(draft, words),
        b"entry" => entry(draft, words),
        b"fill" => fill(draft, words),
        _ => say::text(b"not understood: a draft's line\n"),
    }
}
