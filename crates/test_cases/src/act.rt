// A line of a script: what it is about, what is done to it, and numbers.
ghost use Rattle.test_world.specs.Worlds.{BothWithin};

use test_script::line::Line;
use test_script::say;
use test_world::world::World;
use test_world::{drafts, plans};

// A line that has no meaning is printed, so that the output shows it.
fn unknown(line: &[u8]) {
    say::text(b"not understood: ");
    say::text(line);
    say::text(b"\n");
}

// An empty line and one that begins with # mean nothing. The subject stands at the line's beginning, and behind it what is done to it.
pub fn line(world: &mut World, line: &[u8])
    ensures { BothWithin world.old → BothWithin world.new }
{
    if line.is_empty() || line[0] == b'#' {
        return;
    }
    if line[0] == b' ' {
        return unknown(line);
    }
    let mut words = Line { left: line };
    let subject = words.word();
    let what = words.word();
    match subject {
        b"table" => drafts::act(&mut world.table, what, words),
        b"log" => drafts::act(&mut world.log, what, words),
        b"plan" => plans::act(world, what, words),
        b"call" => test_calls::act(world, what, words),
        _ => unknown(line),
    }
}
