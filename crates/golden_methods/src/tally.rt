//! Answers counted and hashed.

use itoa::Buffer;
use pybuf_value::{ByteLists, Made, Outcome, Text};

/// How many answers there were, and the FNV-1a hash, of 64 bits, of their texts, each of which ends
/// with a line feed.
#[derive(Drop)]
pub struct Tally {
    pub count: u64,
    pub hash: u64,
}

/// What a method answers.
pub trait Answer {
    /// Goes on with the hash of its text.
    fn write(&self, tally: &mut Tally);
}

impl Tally {
    pub fn new() -> Tally {
        Tally {
            count: 0,
            hash: 0xcbf2_9ce4_8422_2325,
        }
    }

    fn byte(&mut self, byte: u8) {
        self.hash = (self.hash ^ byte as u64).wrapping_mul(0x100_0000_01b3);
    }

    fn text(&mut self, text: &[u8]) {
        for byte in text {
            self.byte(*byte);
        }
    }

    /// Two hexadecimal digits for each byte.
    fn hex(&mut self, bytes: &[u8]) {
        for byte in bytes {
            let mut digits = [0u8; 2];
            // the room has a place for both digits of a byte, so this is never refused
            let _ = hex::encode_to_slice([*byte], &mut digits);
            self.text(digits.as_slice());
        }
    }

    /// Adds an answer.
    pub fn add<A: Answer + Drop>(&mut self, answer: Made<A>) -> Made<()> {
        let answer = answer?;
        answer.write(self);
        self.byte(b'\n');
        self.count = self.count.wrapping_add(1);
        Ok(())
    }
}

/// `1` or `0`.
impl Answer for bool {
    fn write(&self, tally: &mut Tally) {
        tally.byte(if *self { b'1' } else { b'0' });
    }
}

/// Decimal digits.
impl Answer for usize {
    fn write(&self, tally: &mut Tally) {
        let mut buffer = Buffer::new();
        tally.text(buffer.format(*self).as_bytes());
    }
}

/// A place, or `-1` where there is none.
impl Answer for Option<usize> {
    fn write(&self, tally: &mut Tally) {
        match self {
            Some(place) => place.write(tally),
            None => tally.text(b"-1"),
        }
    }
}

/// Hexadecimal digits.
impl Answer for &[u8] {
    fn write(&self, tally: &mut Tally) {
        tally.hex(self);
    }
}

impl Answer for Vec<u8> {
    fn write(&self, tally: &mut Tally) {
        tally.hex(self.as_slice());
    }
}

impl Answer for Text {
    fn write(&self, tally: &mut Tally) {
        tally.hex(self.as_slice());
    }
}

/// Each list with a comma behind it.
impl Answer for ByteLists {
    fn write(&self, tally: &mut Tally) {
        for list in self.as_slice() {
            tally.hex(list.as_slice());
            tally.byte(b',');
        }
    }
}

/// The three parts of a partition, each with a comma behind it.
impl Answer for (Vec<u8>, bool, Vec<u8>) {
    fn write(&self, tally: &mut Tally) {
        let (first, found, last) = self;
        tally.hex(first.as_slice());
        tally.text(if *found { b",1," } else { b",0," });
        tally.hex(last.as_slice());
        tally.byte(b',');
    }
}

/// A refusal is the name of Python's exception.
impl<A: Answer> Answer for Outcome<A> {
    fn write(&self, tally: &mut Tally) {
        match self {
            Outcome::Done(answer) => answer.write(tally),
            Outcome::Refused(fault) => tally.text(fault.python_name().as_bytes()),
        }
    }
}
