// Decimal numbers, read from bytes and printed; and the fixed bytes of the text.
#![tactic(auto)]

pub mod keys; // keys.rt: the fixed bytes

ghost use Rattle.std.specs.Prelude.{◌≡◌, true, [], ◌∷◌};
ghost use Rattle.decimal.specs.Decimal.{read_digits as digits, read_natural as natural, read_number as number, print_natural, print_number};
ghost use Rattle.decimal.specs.Numbers.{limited, option_of};
ghost use Rattle.laws.specs.Lists.{all};
ghost use Rattle.decimal.specs.Puts.{Puts};
ghost use Rattle.decimal.specs.Widths.{fitting};

// The digits of an absolute value, at most 2147483648.
fn read_digits(part: &[u8]) -> Option<u64>
    ensures { result ≡ option_of (limited (digits 0 part.now)) }
{
    let mut n = 0;
    for b in part {
        if !b.is_ascii_digit() {
            return None;
        }
        n = 10 * n + u64::from(b - b'0');
        if n > 2147483648 {
            return None;
        }
    }
    Some(n)
}

// At least one digit; a first 0 stands alone.
fn read_natural(part: &[u8]) -> Option<u64>
    ensures { result ≡ option_of (limited (natural part.now)) }
{
    if part.is_empty() {
        return None;
    }
    if part[0] == b'0' && part.len() > 1 {
        return None;
    }
    read_digits(part)
}

pub fn read_number(part: &[u8]) -> Option<i32>
    ensures { result ≡ option_of (number part.now) }
{
    if part.is_empty() {
        return None;
    }
    if part[0] == b'-' {
        let n = read_natural(&part[1..])?;
        if n == 0 {
            return None;
        }
        return Some(-1 - (n - 1) as i32);
    }
    let n = read_natural(part)?;
    i32::try_from(n).ok()
}

// A byte at a place, and the place after it; at the end neither changes.
pub fn put_byte(out: &mut [u8], at: usize, b: u8) -> usize
    ensures { Puts out.old at (b ∷ []) out.new result }
{
    if at < out.len() {
        out[at] = b;
        at + 1
    } else {
        at
    }
}

pub fn put_natural(out: &mut [u8], at: usize, n: u64) -> usize
    ensures { Puts out.old at (print_natural n) out.new result }
{
    if n < 10 {
        return put_byte(out, at, b'0' + n as u8);
    }
    let o = put_natural(out, at, n / 10);
    put_byte(out, o, b'0' + (n % 10) as u8)
}

pub fn put_number(out: &mut [u8], at: usize, z: i32) -> usize
    ensures { Puts out.old at (print_number z) out.new result }
{
    if z < 0 {
        let o = put_byte(out, at, b'-');
        return put_natural(out, o, u64::from(z.unsigned_abs()));
    }
    put_natural(out, at, z as u64)
}

// Every byte of a slice.
pub fn put_bytes(out: &mut [u8], at: usize, bytes: &[u8]) -> usize
    ensures { Puts out.old at bytes.now out.new result }
{
    let mut o = at;
    for b in bytes {
        o = put_byte(out, o, *b);
    }
    o
}

// Every word lies within i32: the loop only learns this of the whole slice, and does nothing.
pub fn all_fit(words: &[i32])
    ensures { all fitting words.now ≡ true }
{
    for w in words {
        let _w = *w;
    }
}
