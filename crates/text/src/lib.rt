// Text into a lent output, with a bound: numbers in decimal (rule P1) and the player's lines (rules P2 and P3). What falls past the end is
// left out, and the place given back is then one past the length: no Option, since `Put`, which `player::play` promises too, says it as a
// number. Output and place stay two arguments: in one value each clause would speak of its fields before and after.
#![tactic(auto)]

ghost use Rattle.std.specs.Prelude.{◌≡◌, [], ◌∷◌, ◌++◌, ◌+◌, ◌/◌, ◌%◌, ◌≤◌, length};
ghost use Rattle.rules.specs.Player.{space, digit, decimal, spaced, line_of};
ghost use Rattle.rules.specs.Meaning.{said};
ghost use Rattle.text.specs.Put.{Put};

use rules::{Answer, Reply};

// One byte, if its place is within the output.
// A test and a store, since after a `get_mut` a proof knows none of the elements.
pub fn byte(out: &mut [u8], at: usize, b: u8) -> usize
    ensures { Put out.old at (b ∷ []) out.new result }
{
    if at < out.len() {
        out[at] = b;
        at + 1
    } else {
        out.len() + 1
    }
}

// The bytes of a slice, each if its place is within the output.
fn cut(out: &mut [u8], at: usize, w: &[u8]) -> usize
    requires { at ≤ length out.old + 1 }
    ensures { Put out.old at w.now out.new result }
{
    let mut end = at;
    for &b in w {
        end = byte(out, end, b);
    }
    end
}

// All bytes of a slice. If all of them fit no other test is needed.
pub fn word(out: &mut [u8], at: usize, w: &[u8]) -> usize
    ensures { Put out.old at w.now out.new result }
{
    let start = at.min(out.len() + 1);
    let end = start + w.len();
    if out.len() < end {
        return cut(out, start, w);
    }
    out[start..end].copy_from_slice(w);
    end
}

// The last digit of a number.
// By `as`, since it fits: `u8::try_from` would have a case that can't be.
fn last(n: usize) -> u8
    ensures { result ≡ digit (n % 10) }
{
    b'0' + (n % 10) as u8
}

// The last two digits of a number.
fn two(out: &mut [u8], at: usize, n: usize) -> usize
    ensures { Put out.old at (digit (n / 10 % 10) ∷ digit (n % 10) ∷ []) out.new result }
{
    let after = byte(out, at, last(n / 10));
    byte(out, after, last(n))
}

// A number in decimal: its higher digits, then the last two. Few numbers have more than four.
pub fn number(out: &mut [u8], at: usize, n: usize) -> usize
    ensures { Put out.old at (decimal n) out.new result }
{
    if n < 10 {
        return byte(out, at, last(n));
    }
    if n < 100 {
        return two(out, at, n);
    }
    if n < 1000 {
        let after = byte(out, at, last(n / 100));
        return two(out, after, n);
    }
    if n < 10000 {
        let after = two(out, at, n / 100);
        return two(out, after, n);
    }
    let after = number(out, at, n / 100);
    two(out, after, n)
}

// A value with the space before it.
fn value(out: &mut [u8], at: usize, v: u16) -> usize
    ensures { Put out.old at (space ∷ decimal v) out.new result }
{
    let after = byte(out, at, b' ');
    number(out, after, usize::from(v))
}

// What a line ends with: its values and the line feed.
fn values(out: &mut [u8], at: usize, vs: &[u16]) -> usize
    ensures { Put out.old at (spaced vs.now) out.new result }
{
    let mut end = at;
    for &v in vs {
        end = value(out, end, v);
    }
    byte(out, end, b'\n')
}

// What follows the record's number in a line: a word and the values.
fn rest(out: &mut [u8], at: usize, w: &[u8], vs: &[u16]) -> usize
    ensures { Put out.old at (w.now ++ spaced vs.now) out.new result }
{
    let end = word(out, at, w);
    values(out, end, vs)
}

// The line of an answer to the record at a place.
pub fn line(out: &mut [u8], at: usize, place: usize, a: Answer) -> usize
    ensures { Put out.old at (line_of place (said a)) out.new result }
{
    let after = number(out, at, place);
    match a {
        Ok(Reply::Ready(u)) => rest(out, after, b" ready", &[u]),
        Ok(Reply::Sent(p, q, h)) => rest(out, after, b" sent", &[p, q, h.0]),
        Ok(Reply::Accepted(p, q)) => rest(out, after, b" accepted", &[p, q]),
        Ok(Reply::Dropped) => rest(out, after, b" dropped", &[]),
        Ok(Reply::Handle(h)) => rest(out, after, b" handle", &[h.0]),
        Ok(Reply::Parsed(y, v, l)) => rest(out, after, b" parsed", &[y, v, l]),
        Err(refusal) => rest(out, after, b" refused", &[refusal.0]),
    }
}
