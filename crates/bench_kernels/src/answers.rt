//! What a kernel answers, and its check sum.

use pybuf_value::{ByteList, ByteLists, Halt, NumberList, Outcome, Scalar, Tried};

/// What a call of a kernel answers. `Refused` is no answer of a kernel that works as it should.
#[derive(Drop)]
pub enum Answer {
    Nothing,
    Number(i128),
    Bytes(Vec<u8>),
    Parts(ByteLists),
    Numbers(NumberList),
    Refused,
}

/// Adler's check sum over bytes, carried on from that of the bytes before; it begins at 1.
fn adler(before: u32, bytes: &[u8]) -> u32 {
    let mut low = before % 65_536;
    let mut high = before / 65_536;
    for byte in bytes {
        low = low.wrapping_add(*byte as u32) % 65_521;
        high = high.wrapping_add(low) % 65_521;
    }
    high.wrapping_mul(65_536).wrapping_add(low)
}

/// A length and a check sum as one number.
fn mark_of(length: usize, sum: u32) -> i128 {
    length as i128 * 4_294_967_296 + sum as i128
}

/// The mark of bytes.
pub fn mark_of_bytes(bytes: &[u8]) -> i128 {
    mark_of(bytes.len(), adler(1, bytes))
}

/// The mark of parts: how many there are, and the check sum of all with a bar behind each.
fn mark_of_parts(parts: &[ByteList]) -> i128 {
    let mut sum = 1;
    for part in parts {
        sum = adler(adler(sum, part.as_slice()), b"|");
    }
    mark_of(parts.len(), sum)
}

/// The mark of numbers: the first once, the second twice, and so on.
fn mark_of_numbers(numbers: &[i128]) -> i128 {
    let mut sum = 0i128;
    let mut weight = 0i128;
    for number in numbers {
        weight = weight.wrapping_add(1);
        sum = sum.wrapping_add(number.wrapping_mul(weight));
    }
    sum
}

/// What a value counts: a number itself, bytes their sum.
pub fn count_of(value: &Scalar) -> i128 {
    match value {
        Scalar::Int(number) => *number,
        Scalar::Bytes(bytes) => {
            let mut sum = 0u64;
            for byte in bytes.as_slice() {
                sum = sum.wrapping_add(*byte as u64);
            }
            sum as i128
        }
        _ => -1,
    }
}

/// What the values of a record count: the first once, the second twice, and so on.
pub fn count_of_values(values: &[Scalar]) -> i128 {
    let mut sum = 0i128;
    let mut weight = 0i128;
    for value in values {
        weight = weight.wrapping_add(1);
        sum = sum.wrapping_add(count_of(value).wrapping_mul(weight));
    }
    sum
}

impl Answer {
    /// The bytes that a call gives.
    pub fn of_bytes(answer: Tried<Vec<u8>>) -> Result<Answer, Halt> {
        match answer? {
            Outcome::Done(bytes) => Ok(Answer::Bytes(bytes)),
            Outcome::Refused(fault) => Err(Halt::Refused(fault)),
        }
    }

    /// The check sum: that of the bytes, of the parts or of the numbers, or the number.
    pub fn mark(&self) -> i128 {
        match self {
            Answer::Nothing => 0,
            Answer::Number(number) => *number,
            Answer::Bytes(bytes) => mark_of_bytes(bytes.as_slice()),
            Answer::Parts(parts) => mark_of_parts(parts.as_slice()),
            Answer::Numbers(numbers) => mark_of_numbers(numbers.as_slice()),
            Answer::Refused => -1,
        }
    }
}
