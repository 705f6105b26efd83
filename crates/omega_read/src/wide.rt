// Numbers outside signed 64 bits.
ghost use Rattle.std.specs.Prelude.{◌≡◌, ◌≤◌, ◌++◌, nat_lt, [], length, take, drop, IfOk, OnOk};
ghost use Rattle.std.specs.Char.{is_ascii_digit};
ghost use Rattle.omega_spelling.specs.Reading.{passes, value_of};
ghost use Rattle.omega_spelling.specs.Refusals.{Outside, in_item, goes_on, some_digits, is_number, is_wide, zeroed_item, zeroed_from, wide_from, lines_cut, has_wide, zeroed};
ghost use Rattle.omega_read.specs.Inner.Scan.{place_of};

use crate::depth::{Spot, spot_after};
use crate::numbers::value;
use omega_kinds::Mem;
use std::alloc::Global;

// Whether a byte may stand in an item.
fn is_in_item(b: u8) -> bool
    ensures { result ≡ in_item b }
{
    !(b == b' ' || b == b'\n' || b == b'(' || b == b')' || b == b'"')
}

// Whether a byte goes on an item.
fn item_goes_on(spot: Spot, b: u8) -> bool
    ensures { result ≡ goes_on (place_of spot) b }
{
    match spot {
        Spot::Outside => is_in_item(b),
        Spot::Inside | Spot::Escaped => false,
    }
}

// Whether all bytes are digits.
fn all_digits(bytes: &[u8]) -> bool
    ensures { result ≡ passes is_ascii_digit bytes.now }
{
    for b in bytes {
        if !b.is_ascii_digit() {
            return false;
        }
    }
    true
}

// Whether the bytes are one or more digits.
fn are_digits(bytes: &[u8]) -> bool
    ensures { result ≡ some_digits bytes.now }
{
    match bytes {
        [] => false,
        [_, ..] => all_digits(bytes),
    }
}

// Whether an item is a number.
fn is_numeral(item: &[u8]) -> bool
    ensures { result ≡ is_number item.now }
{
    match item {
        [] => false,
        [first, rest @ ..] => are_digits(item) || *first == b'-' && are_digits(rest),
    }
}

// Whether the number of these digits is below a limit.
fn is_below(digits: &[u8], limit: u64) -> bool
    ensures { result ≡ nat_lt (value_of digits.now) limit }
{
    match value(digits) {
        None => false,
        Some(n) => n < limit,
    }
}

// Whether the number of these digits is above a limit.
fn is_above(digits: &[u8], limit: u64) -> bool
    ensures { result ≡ nat_lt limit (value_of digits.now) }
{
    match value(digits) {
        None => true,
        Some(n) => limit < n,
    }
}

// Whether an item is a number outside signed 64 bits.
fn is_wide_item(item: &[u8]) -> bool
    ensures { result ≡ is_wide item.now }
{
    match item {
        [] => false,
        [first, rest @ ..] => {
            are_digits(item) && !is_below(item, 1 << 63)
                || *first == b'-' && are_digits(rest) && is_above(rest, 1 << 63)
        }
    }
}

// How many bytes the first line has, with its end.
#[tactic(auto, using(crate::proofs::Lines::lines))]
fn line_len(bytes: &[u8]) -> usize
    ensures cut { lines_cut bytes.now ≡ (take result bytes.now, drop result bytes.now) }
    ensures within { result ≤ length bytes.now }
{
    for (i, b) in bytes.iter().enumerate() {
        if *b == b'\n' {
            return i + 1;
        }
    }
    bytes.len()
}

// Whether some number is outside signed 64 bits, where the bytes begin outside texts.
#[tactic(auto, using(crate::proofs::Items::wides))]
fn finds_wide(bytes: &[u8]) -> bool
    ensures { result ≡ wide_from Outside [] bytes.now }
{
    let mut spot = Spot::Outside;
    let mut start = 0;
    for (i, b) in bytes.iter().enumerate() {
        if item_goes_on(spot, *b) {
            continue;
        }
        if is_wide_item(&bytes[start..i]) {
            return true;
        }
        spot = spot_after(spot, *b);
        start = i + 1;
    }
    is_wide_item(&bytes[start..])
}

// Whether some number behind the first line is outside signed 64 bits.
#[tactic(auto, unfolding(omega_spelling::specs::Refusals::has_wide))]
pub fn any_wide(bytes: &[u8]) -> bool
    ensures { result ≡ has_wide bytes.now }
{
    finds_wide(&bytes[line_len(bytes)..])
}

// An item, or 0 where it is a number.
fn item_or_zero<'a>(item: &'a [u8]) -> &'a [u8]
    ensures { result.now ≡ zeroed_item item.now }
{
    if is_numeral(item) { b"0" } else { item }
}

// Puts bytes that begin outside texts behind the bytes so far, with 0 for each number.
#[tactic(auto, using(crate::proofs::Items::zeros))]
fn put_zeroed(out: &mut Vec<u8>, bytes: &[u8]) -> Result<(), Mem>
    ensures { OnOk result (out.new.items ≡ out.old.items ++ zeroed_from Outside [] bytes.now) }
{
    let mut spot = Spot::Outside;
    let mut start = 0;
    for (i, b) in bytes.iter().enumerate() {
        if item_goes_on(spot, *b) {
            continue;
        }
        out.extend_from_slice(item_or_zero(&bytes[start..i]))?;
        out.push(*b)?;
        spot = spot_after(spot, *b);
        start = i + 1;
    }
    out.extend_from_slice(item_or_zero(&bytes[start..]))?;
    Ok(())
}

// The bytes with each number behind the first line replaced by 0. `Err` is out of memory.
#[tactic(auto, unfolding(omega_spelling::specs::Refusals::zeroed))]
pub fn with_zeros(alloc: Global, bytes: &[u8]) -> Result<Vec<u8>, Mem>
    ensures { IfOk result (λ v. v.items ≡ zeroed bytes.now) }
{
    let n = line_len(bytes);
    let mut out = Vec::new(alloc);
    out.extend_from_slice(&bytes[..n])?;
    put_zeroed(&mut out, &bytes[n..])?;
    Ok(out)
}
