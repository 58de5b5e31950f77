//! The same by loops over bytes, and bytes to try it on.

/// How many bytes a source has: 200, and 15 for where they begin.
pub const SOURCE: usize = 215;

/// Fills a source with bytes that look drawn. A third of them are blanks where they are wanted.
pub fn fill(source: &mut [u8], blanks: bool) {
    let mut drawn: u32 = 1;
    for byte in source {
        drawn = drawn.wrapping_mul(1_103_515_245).wrapping_add(12_345);
        let [_, kind, value, _] = drawn.to_be_bytes();
        *byte = if blanks && kind % 3 == 0 {
            9 + value % 5
        } else {
            value
        };
    }
}

fn is_blank(byte: u8) -> bool {
    byte == 32 || (9 <= byte && byte <= 13)
}

pub fn count_byte(bytes: &[u8], wanted: u8) -> usize {
    let mut found: usize = 0;
    for byte in bytes {
        if *byte == wanted {
            found = found.wrapping_add(1);
        }
    }
    found
}

pub fn leading_blanks(bytes: &[u8]) -> usize {
    let mut found: usize = 0;
    for byte in bytes {
        if !is_blank(*byte) {
            return found;
        }
        found = found.wrapping_add(1);
    }
    found
}

/// The blanks behind the last byte that is none.
pub fn trailing_blanks(bytes: &[u8]) -> usize {
    let mut found: usize = 0;
    for byte in bytes {
        found = if is_blank(*byte) {
            found.wrapping_add(1)
        } else {
            0
        };
    }
    found
}

fn digit(number: u8) -> u8 {
    if number < 10 {
        48 + number
    } else {
        87 + number % 16
    }
}

/// Writes the two digits of each byte as far as the room goes.
pub fn write_digits(bytes: &[u8], room: &mut [u8]) {
    let mut digits = room.iter_mut();
    for byte in bytes {
        if let Some(high) = digits.next() {
            *high = digit(*byte / 16);
        }
        if let Some(low) = digits.next() {
            *low = digit(*byte % 16);
        }
    }
}

/// Writes every second byte as far as the room goes.
pub fn gather_halves(bytes: &[u8], room: &mut [u8]) {
    let mut taken = room.iter_mut();
    let mut is_wanted = true;
    for byte in bytes {
        if is_wanted {
            if let Some(one) = taken.next() {
                *one = *byte;
            }
        }
        is_wanted = !is_wanted;
    }
}
