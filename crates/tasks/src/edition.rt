// The editions of a table.
ghost use Rattle.std.specs.Prelude.{◌≡◌, cond};
ghost use Rattle.tasks.specs.Content.{has_deadlines};
ghost use Rattle.tasks.specs.Tests.{bad_edition};

// "In edition 2 a loop has 16 bytes, the deadline D last".
pub fn has_deadlines(edition: u8) -> bool
    ensures { result ≡ has_deadlines edition }
{
    edition == 2
}

// "an unused place in edition 1"
pub fn deadline_in(edition: u8, deadline: u32) -> u32
    ensures { result ≡ cond (has_deadlines edition) deadline 0 }
{
    if has_deadlines(edition) {
        return deadline;
    }
    0
}

// "Number 1 now refuses bytes other than 1 and 2".
pub fn is_unknown(edition: u8) -> bool
    ensures { result ≡ bad_edition edition }
{
    if edition == 1 {
        return false;
    }
    edition != 2
}
