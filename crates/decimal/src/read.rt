// Reading a number at a place of a text.
ghost use Rattle.std.specs.Prelude.{◌+◌, ◌≡◌, ◌≤◌, get_or, drop, length};
ghost use Rattle.decimal.specs.Read.{digit, with_digit, more, digits, field_at, natural_at, signed_at, behind_tab, natural_behind_tab, signed_behind_tab};

use crate::{MINUS, TAB};

// The values from least to most and, where below is not 0, those from -below to -1.
#[derive(Clone, Copy)]
pub struct Range {
    pub below: u64,
    pub least: u64,
    pub most: u64,
}

impl Range {
    // The values of document 01: any signed 32-bit number.
    pub const VALUES: Range = Range {
        below: 2147483648,
        least: 0,
        most: 2147483647,
    };
}

// The number at a place, in a range, and the place just behind it: the longest run of a minus and digits. None where there is no digit, a
// leading zero, a minus before zero, or a value out of the range, however long.
pub fn field_at(s: &[u8], at: usize, range: Range) -> Option<(i128, usize)>
    ensures { result ≡ field_at s.now at range }
{
    if byte_at(s, at) == MINUS {
        let (m, e) = digits_at(s, at + 1, range.below)?;
        if m == 0 {
            return None;
        }
        return Some((-i128::from(m), e));
    }
    let (v, e) = digits_at(s, at, range.most)?;
    if v < range.least {
        return None;
    }
    Some((i128::from(v), e))
}

// A number from least to most.
pub fn natural_at(s: &[u8], at: usize, least: u64, most: u64) -> Option<(u64, usize)>
    ensures { result ≡ natural_at s.now at least most }
{
    let range = Range {
        below: 0,
        least,
        most,
    };
    let (v, e) = field_at(s, at, range)?;
    Some((v as u64, e))
}

// Any signed 32-bit number.
pub fn signed_at(s: &[u8], at: usize) -> Option<(i32, usize)>
    ensures { result ≡ signed_at s.now at }
{
    let (v, e) = field_at(s, at, Range::VALUES)?;
    Some((v as i32, e))
}

// A number from least to most, behind the tab at a place.
#[tactic(auto, unfolding(crate::specs::Read::natural_behind_tab))]
pub fn natural_behind_tab(s: &[u8], at: usize, least: u64, most: u64) -> Option<(u64, usize)>
    ensures { result ≡ natural_behind_tab s.now at least most }
{
    natural_at(s, behind_tab(s, at)?, least, most)
}

// Any signed 32-bit number, behind the tab at a place.
#[tactic(auto, unfolding(crate::specs::Read::signed_behind_tab))]
pub fn signed_behind_tab(s: &[u8], at: usize) -> Option<(i32, usize)>
    ensures { result ≡ signed_behind_tab s.now at }
{
    signed_at(s, behind_tab(s, at)?)
}

// The byte at a place. Past the end stands 0: no digit, no minus, no tab, no newline.
pub fn byte_at(s: &[u8], at: usize) -> u8
    ensures { result ≡ get_or s.now at 0 }
{
    s.get(at).copied().unwrap_or(0)
}

// The place behind the tab at a place.
fn behind_tab(s: &[u8], at: usize) -> Option<usize>
    ensures { result ≡ behind_tab s.now at (Some (at + 1)) None }
{
    if byte_at(s, at) == TAB {
        Some(at + 1)
    } else {
        None
    }
}

// A run of digits, worth at most most.
fn digits_at(s: &[u8], at: usize, most: u64) -> Option<(u64, usize)>
    ensures { result ≡ digits most at (drop at s.now) }
{
    let first = digit(byte_at(s, at))?;
    if most < first {
        return None;
    }
    more_digits(s, at + 1, first, most)
}

// The digits behind those worth first.
fn more_digits(s: &[u8], from: usize, first: u64, most: u64) -> Option<(u64, usize)>
    requires { from ≤ length s.now }
    ensures { result ≡ more most first from (drop from s.now) }
{
    let mut v = first;
    for i in from..s.len() {
        let Some(d) = digit(s[i]) else {
            return Some((v, i));
        };
        v = with_digit(v, d, most)?;
    }
    Some((v, s.len()))
}

// What a digit is worth.
#[tactic(auto, unfolding(crate::specs::Text::is_digit))]
fn digit(b: u8) -> Option<u64>
    ensures { result ≡ digit b }
{
    match b {
        b'0'..=b'9' => Some(u64::from(b - b'0')),
        _ => None,
    }
}

// v with the digit d behind it: at most most, and none behind a leading zero.
fn with_digit(v: u64, d: u64, most: u64) -> Option<u64>
    ensures { result ≡ with_digit most v d }
{
    if v == 0 {
        return None;
    }
    let w = v.checked_mul(10)?.checked_add(d)?;
    if w <= most { Some(w) } else { None }
}
