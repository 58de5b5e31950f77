//! Blanks at the ends of bytes.
ghost use Rattle.std.specs.Prelude.{◌≡◌, ◌-◌, ◌≤◌, length, map, not};
ghost use Rattle.std.specs.List.{prefix_len, suffix_len};
ghost use Rattle.std.specs.Simd.Lanes.{mask_l};
ghost use Rattle.pybuf_lanes.specs.Blanks as spec;

use std::simd::prelude::*;

/// Whether a byte is a blank.
#[inline(always)]
fn is_blank(byte: u8) -> bool
    ensures { result ≡ spec.is_blank byte }
{
    byte == b' ' || b'\t' <= byte && byte <= b'\r'
}

/// A mask with bit k set exactly where lane k is no blank.
#[inline(always)]
fn other_mask(lanes: u8x16) -> u64
    ensures { result ≡ mask_l (map (λ b. not (spec.is_blank b)) lanes) }
{
    let from_tab = (lanes - u8x16::splat(9)).simd_lt(u8x16::splat(5));
    (!(lanes.simd_eq(u8x16::splat(32)) | from_tab)).to_bitmask()
}

/// How many lanes before the first that is no blank.
#[inline(always)]
fn leading_lanes(lanes: u8x16) -> usize
    ensures { result ≡ prefix_len spec.is_blank lanes }
{
    let others = other_mask(lanes);
    if others == 0 {
        16
    } else {
        others.trailing_zeros() as usize
    }
}

/// How many lanes behind the last that is no blank.
#[inline(always)]
fn trailing_lanes(lanes: u8x16) -> usize
    ensures { result ≡ suffix_len spec.is_blank lanes }
{
    leading_lanes(lanes.reverse())
}

/// How many blanks the bytes begin with: from 0 to their number. A blank is a space or one of the five bytes from
/// the tab to the carriage return. Takes no memory.
///
/// Example: `leading_blanks(b" \ta ")` is 2.
pub fn leading_blanks(bytes: &[u8]) -> usize
    ensures value { result ≡ prefix_len spec.is_blank bytes.now }
    ensures inside { result ≤ length bytes.now }
{
    let mut at = 0;
    while bytes.len() - at >= 16 {
        let blanks = leading_lanes(u8x16::from_slice(&bytes[at..]));
        if blanks < 16 {
            return at + blanks;
        }
        at += 16;
    }
    while at < bytes.len() && is_blank(bytes[at]) {
        at += 1;
    }
    at
}

/// How many blanks the bytes end with: from 0 to their number. Takes no memory.
///
/// Example: `trailing_blanks(b" a\r\n")` is 2.
pub fn trailing_blanks(bytes: &[u8]) -> usize
    ensures value { result ≡ suffix_len spec.is_blank bytes.now }
    ensures inside { result ≤ length bytes.now }
{
    let mut end = bytes.len();
    while end >= 16 {
        let blanks = trailing_lanes(u8x16::from_slice(&bytes[end - 16..]));
        if blanks < 16 {
            return bytes.len() - end + blanks;
        }
        end -= 16;
    }
    while end > 0 && is_blank(bytes[end - 1]) {
        end -= 1;
    }
    bytes.len() - end
}
