// Writing a number at a place of a lent buffer: whole, or not at all. Each answers the place just behind what was written, or None where it
// did not fit and the buffer is as it was.
ghost use Rattle.std.specs.Prelude.{◌+◌, ◌<◌, ◌≡◌, [], ◌∷◌, length};
ghost use Rattle.decimal.specs.Text.{decimal, plain};
ghost use Rattle.decimal.specs.Write.{put, wrote, ends};

use crate::MINUS;

// One byte, as a separator.
pub fn put_byte(buf: &mut [u8], at: usize, b: u8) -> Option<usize>
    ensures reply { result ≡ wrote buf.old at (b ∷ []) }
    ensures buffer { buf.new ≡ put buf.old at (b ∷ []) }
{
    put_text(buf, at, &[b])
}

// A text, as a word.
pub fn put_text(buf: &mut [u8], at: usize, text: &[u8]) -> Option<usize>
    ensures reply { result ≡ wrote buf.old at text.now }
    ensures buffer { buf.new ≡ put buf.old at text.now }
{
    let end = end_of(buf, at, text.len())?;
    buf[at..end].copy_from_slice(text);
    Some(end)
}

// The digits of n.
pub fn put_natural(buf: &mut [u8], at: usize, n: u64) -> Option<usize>
    ensures reply { result ≡ wrote buf.old at (decimal n) }
    ensures buffer { buf.new ≡ put buf.old at (decimal n) }
{
    let end = end_of(buf, at, width(n))?;
    spell(&mut buf[at..end], n);
    Some(end)
}

// The plain form of n.
pub fn put_signed(buf: &mut [u8], at: usize, n: i32) -> Option<usize>
    ensures reply { result ≡ wrote buf.old at (plain n) }
    ensures buffer { buf.new ≡ put buf.old at (plain n) }
{
    let digits = u64::from(n.unsigned_abs());
    if 0 <= n {
        return put_natural(buf, at, digits);
    }
    end_of(buf, at, 1 + width(digits))?;
    let first = put_byte(buf, at, MINUS)?;
    put_natural(buf, first, digits)
}

// Where width bytes from at on end, if that is within the buffer; at + width may not be a number of the machine.
fn end_of(buf: &[u8], at: usize, width: usize) -> Option<usize>
    ensures { result ≡ ends buf.now at width }
{
    let end = at.checked_add(width)?;
    if end <= buf.len() { Some(end) } else { None }
}

// Stores the digits of n, which fill the buffer, from the back.
fn spell(buf: &mut [u8], n: u64)
    requires { length buf.old ≡ length (decimal n) }
    ensures { buf.new ≡ decimal n }
{
    let mut rest = n;
    for i in (0..buf.len()).rev() {
        buf[i] = b'0' + (rest % 10) as u8;
        rest /= 10;
    }
}

// How many digits n has.
fn width(n: u64) -> usize
    ensures { result ≡ length (decimal n) }
{
    match n.checked_ilog10() {
        Some(k) => k as usize + 1,
        None => 1,
    }
}
