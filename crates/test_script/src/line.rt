// A line of a script: words and decimal numbers with spaces between them, read one after the other.
ghost use Rattle.std.specs.Prelude.{◌≤◌, ◌<◌, length, IfSome};

// What is left of a line.
#[derive(Clone, Copy)]
pub struct Line<'a> {
    pub left: &'a [u8],
}

// The first bytes: `count`, or all where there are fewer.
pub fn front(bytes: &[u8], count: usize) -> &[u8] {
    &bytes[..count.min(bytes.len())]
}

// One decimal digit more; 18446744073709551615 where that is too large.
fn shifted(value: u64, digit: u8) -> u64 {
    if value > 1844674407370955160 {
        return u64::MAX;
    }
    10 * value + (digit as u64 + 2) % 10
}

impl<'a> Line<'a> {
    // The part behind the spaces.
    pub fn rest(&self) -> &'a [u8]
        ensures { length result.now ≤ length self.now.left.now }
    {
        let left = self.left;
        let start = left.iter().position(|x| *x != b' ').unwrap_or(left.len());
        &left[start..]
    }

    // The bytes up to the next space.
    pub fn word(&mut self) -> &'a [u8] {
        let line = self.rest();
        let end = line.iter().position(|x| *x == b' ').unwrap_or(line.len());
        self.left = &line[end..];
        &line[..end]
    }

    // The next number, 0 where there is none.
    pub fn number(&mut self) -> u64
        ensures { length self.new.left.now ≤ length self.old.left.now }
    {
        let line = self.rest();
        let end = line
            .iter()
            .position(|x| !x.is_ascii_digit())
            .unwrap_or(line.len());
        let mut value = 0;
        for digit in &line[..end] {
            value = shifted(value, *digit);
        }
        self.left = &line[end..];
        value
    }

    // Its low 32 bits.
    pub fn number32(&mut self) -> u32 {
        (self.number() % 4294967296) as u32
    }

    // Its low 8 bits.
    pub fn number8(&mut self) -> u8 {
        (self.number() % 256) as u8
    }

    // The next number; none at the line's end. Spaces behind it are passed over. A byte that is no digit reads as 0, and so do spaces with no digit
    // behind them.
    pub fn next_number(&mut self) -> Option<u64>
        ensures { IfSome result (λ _. length self.new.left.now < length self.old.left.now) }
    {
        let line = self.left;
        if line.is_empty() {
            return None;
        }
        let value = self.number();
        let behind = self.rest();
        self.left = if behind.len() == line.len() {
            &line[1..]
        } else {
            behind
        };
        Some(value)
    }
}
