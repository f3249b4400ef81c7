// Bytes in the making, of a table or a log: they are added in the order that document 01 gives them, right or wrong.
ghost use Rattle.test_tables.specs.Drafts.{Within};

use test_script::line::{Line, front};

// The longest table has 5,359 bytes.
const LONGEST: usize = 5400;

// The first `length` of the bytes count.
#[derive(Clone, Copy)]
pub struct Draft {
    pub bytes: [u8; LONGEST],
    pub length: usize,
}

impl Draft {
    pub fn new() -> Draft
        ensures { Within result }
    {
        Draft {
            bytes: [0; LONGEST],
            length: 0,
        }
    }

    pub fn as_slice(&self) -> &[u8] {
        front(&self.bytes, self.length)
    }

    // Beyond 5,400 bytes nothing is added.
    pub fn push(&mut self, byte: u8)
        ensures { Within self.old → Within self.new }
    {
        if self.length < LONGEST {
            self.bytes[self.length] = byte;
            self.length += 1;
        }
    }

    // Four bytes, low byte first.
    pub fn push4(&mut self, value: u32)
        ensures { Within self.old → Within self.new }
    {
        for part in value.to_le_bytes() {
            self.push(part);
        }
    }

    // The same byte `count` times.
    pub fn fill(&mut self, count: u64, byte: u8)
        ensures { Within self.old → Within self.new }
    {
        for _ in 0..count {
            self.push(byte);
        }
    }

    // The numbers of a line, one byte each.
    pub fn bytes(&mut self, mut words: Line)
        ensures { Within self.old → Within self.new }
    {
        words.left = words.rest();
        while let Some(value) = words.next_number() {
            self.push((value % 256) as u8);
        }
    }

    // The numbers of a line, four bytes each.
    pub fn numbers(&mut self, mut words: Line)
        ensures { Within self.old → Within self.new }
    {
        words.left = words.rest();
        while let Some(value) = words.next_number() {
            self.push4((value % 4294967296) as u32);
        }
    }

    // The same numbers `count` times: as many loops, (T, C, Y) in edition 1 and (T, C, Y, D) in edition 2.
    pub fn loops(&mut self, count: u64, words: Line)
        ensures { Within self.old → Within self.new }
    {
        for _ in 0..count {
            self.numbers(words);
        }
    }
}
