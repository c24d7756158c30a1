// Decimal numbers, and intervals of them: `*`, a number, or `low-high`. A number reads if it has no sign and no leading zero and is
// not past the largest that its place allows; nothing wraps, however many digits there are. The contracts say that each answer is
// what specs/ defines for the bytes, for every text.

#![tactic(auto)]

ghost use Rattle.std.specs.Prelude.{◌≡◌};
ghost use Rattle.parts.specs.Parts.{part, same};
ghost use Rattle.parts.specs.Words.{bytes};
ghost use Rattle.numbers.specs.Decimals.{plain, decimal_of};
ghost use Rattle.numbers.specs.Intervals.{single, range, interval_of};

use blocks::Span;

// Why a field gives no bounds: it does not read; or it reads, but not as a span: the bounds fall, a prefix has bits past its
// length, or a mask is not ones and then zeros.
#[derive(Clone, Copy, PartialEq, Eq)]
pub enum Unfit {
    Unread,
    NoSpan,
}

// Whether a decimal number may begin so: not empty, and no leading zero.
fn is_plain(text: &[u8]) -> bool
    ensures { result ≡ plain text.now }
{
    match text {
        [] => false,
        [_] => true,
        [first, ..] => *first != b'0',
    }
}

// A decimal number up to a largest. No `parse`: that takes a `&str`, and lets signs and leading zeros through.
pub fn decimal(text: &[u8], most: u32) -> Option<u32>
    ensures { result ≡ decimal_of most text.now }
{
    if !is_plain(text) {
        return None;
    }
    let mut value: u32 = 0;
    for byte in text {
        let digit = match byte {
            b'0'..=b'9' => u32::from(*byte - b'0'),
            _ => return None,
        };
        value = value.checked_mul(10)?.checked_add(digit)?;
    }
    if value <= most { Some(value) } else { None }
}

// Part n of a text, counted from 0, as a decimal number up to a largest. A call by itself: what a part is, is then proved once for all.
#[tactic(auto, using(parts::proofs::Parting::shown_bytes, parts::proofs::Parting::piece_bytes))]
pub fn decimal_part(text: &[u8], separator: u8, n: usize, most: u32) -> Option<u32>
    ensures { result ≡ decimal_of most (part separator text.now n) }
{
    decimal(parts::part(text, separator, n), most)
}

// One number as bounds.
pub fn single(number: Option<u32>) -> Result<Span, Unfit>
    ensures { result ≡ single number }
{
    let n = number.ok_or(Unfit::Unread)?;
    Ok(Span { low: n, high: n })
}

// Two numbers as bounds.
pub fn range(first: Option<u32>, second: Option<u32>) -> Result<Span, Unfit>
    ensures { result ≡ range first second }
{
    let low = first.ok_or(Unfit::Unread)?;
    let high = second.ok_or(Unfit::Unread)?;
    if low <= high {
        Ok(Span { low, high })
    } else {
        Err(Unfit::NoSpan)
    }
}

// Whether a text is `*` and nothing else.
pub fn is_star(text: &[u8]) -> bool
    ensures { result ≡ same text.now (bytes "*") }
{
    parts::same(text, b"*")
}

// `*`, a number up to a largest, or two of them parted by a minus sign.
#[tactic(auto, unfolding(crate::specs::Intervals::interval_of))]
pub fn interval(text: &[u8], most: u32) -> Result<Span, Unfit>
    ensures { result ≡ interval_of most text.now }
{
    if is_star(text) {
        return Ok(Span { low: 0, high: most });
    }
    if parts::count(text, b'-') == 2 {
        return range(
            decimal_part(text, b'-', 0, most),
            decimal_part(text, b'-', 1, most),
        );
    }
    single(decimal(text, most))
}
