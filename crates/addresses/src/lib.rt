// Addresses: `*`, a dotted quad, a prefix by its length or its mask, or two quads from low to high. The sizes of the 33 prefix
// lengths stand in a table, and the count of ones and of trailing zeros tells a mask. The contracts say that each answer is what
// specs/ defines for the bytes, for every text.

#![tactic(auto)]

ghost use Rattle.std.specs.Prelude.{◌≡◌, ◌+◌, ◌*◌, ◌≤◌};
ghost use Rattle.parts.specs.Parts.{part};
ghost use Rattle.addresses.specs.Addresses.{quad_of, size_of, prefix_of, masked_by, sized_by, address_of};

use blocks::{Block, Span};
use numbers::Unfit;

// How many addresses each prefix length leaves, from length 0 on. A table, whose rule `entry` in proofs/Tables tells for every length.
const SIZES: [u64; 33] = [
    4294967296, 2147483648, 1073741824, 536870912, 268435456, 134217728, 67108864, 33554432,
    16777216, 8388608, 4194304, 2097152, 1048576, 524288, 262144, 131072, 65536, 32768, 16384,
    8192, 4096, 2048, 1024, 512, 256, 128, 64, 32, 16, 8, 4, 2, 1,
];

// A dotted quad as an address.
#[tactic(auto, using(numbers::proofs::Reckoning::decimal_le), unfolding(crate::specs::Addresses::quad_of))]
pub fn quad(text: &[u8]) -> Option<u32>
    ensures { result ≡ quad_of text.now }
{
    if parts::count(text, b'.') != 4 {
        return None;
    }
    let a = numbers::decimal_part(text, b'.', 0, 255)?;
    let b = numbers::decimal_part(text, b'.', 1, 255)?;
    let c = numbers::decimal_part(text, b'.', 2, 255)?;
    let d = numbers::decimal_part(text, b'.', 3, 255)?;
    Some(((a * 256 + b) * 256 + c) * 256 + d)
}

// Part n of a text, counted from 0, as a dotted quad. A call by itself: what a part is, is then proved once for both that ask.
#[tactic(auto, using(parts::proofs::Parting::shown_bytes, parts::proofs::Parting::piece_bytes))]
fn quad_part(text: &[u8], separator: u8, n: usize) -> Option<u32>
    ensures { result ≡ quad_of (part separator text.now n) }
{
    quad(parts::part(text, separator, n))
}

// How many addresses a prefix length leaves.
fn size(length: u32) -> u64
    requires { length ≤ 32 }
    ensures { result ≡ size_of length }
{
    SIZES[length as usize]
}

// The bounds of a prefix, unless bits past its length are set.
#[tactic(auto, unfolding(crate::specs::Addresses::prefix_of))]
fn prefix(address: u32, length: u32) -> Result<Span, Unfit>
    requires { length ≤ 32 }
    ensures { result ≡ prefix_of address length }
{
    let size = size(length);
    let low = u64::from(address);
    if low % size != 0 {
        return Err(Unfit::NoSpan);
    }
    let high = low + size - 1;
    Ok(Span {
        low: address,
        high: high as u32,
    })
}

// The bounds of a prefix by its mask.
fn masked(address: u32, mask: u32) -> Result<Span, Unfit>
    ensures { result ≡ masked_by address mask }
{
    let length = mask.count_ones();
    if length + mask.trailing_zeros() != 32 {
        return Err(Unfit::NoSpan);
    }
    prefix(address, length)
}

// The bounds of a prefix by what stands after the slash, a length or a mask.
#[tactic(auto, using(numbers::proofs::Reckoning::decimal_le), unfolding(crate::specs::Addresses::sized_by))]
fn sized(address: u32, text: &[u8]) -> Result<Span, Unfit>
    ensures { result ≡ sized_by address text.now }
{
    if let Some(length) = numbers::decimal(text, 32) {
        return prefix(address, length);
    }
    let mask = quad(text).ok_or(Unfit::Unread)?;
    masked(address, mask)
}

// The same by part n of a text, counted from 0. A call by itself, as for a quad.
#[tactic(auto, using(parts::proofs::Parting::shown_bytes, parts::proofs::Parting::piece_bytes))]
fn sized_part(address: u32, text: &[u8], separator: u8, n: usize) -> Result<Span, Unfit>
    ensures { result ≡ sized_by address (part separator text.now n) }
{
    sized(address, parts::part(text, separator, n))
}

// An address field.
#[tactic(auto, unfolding(crate::specs::Addresses::address_of))]
pub fn address(text: &[u8]) -> Result<Span, Unfit>
    ensures { result ≡ address_of text.now }
{
    if numbers::is_star(text) {
        return Ok(Block::WIDEST.source);
    }
    if parts::count(text, b'/') == 2 {
        let low = quad_part(text, b'/', 0).ok_or(Unfit::Unread)?;
        return sized_part(low, text, b'/', 1);
    }
    if parts::count(text, b'-') == 2 {
        return numbers::range(quad_part(text, b'-', 0), quad_part(text, b'-', 1));
    }
    numbers::single(quad(text))
}
