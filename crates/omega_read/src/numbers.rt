// Numbers read from text.
ghost use Rattle.std.specs.Prelude.{◌≡◌, ◌≤◌, ◌<◌, ◌-◌, ◌^◌, negsuc, MatchOption, length, take, drop};
ghost use Rattle.std.specs.Char.{is_ascii_digit};
ghost use Rattle.omega_spelling.specs.Reading.{run, number_at, value_of, is_plain};
ghost use Rattle.omega_spelling.specs.TermReading.{negative_at, positive_at, signed_at};
ghost use Rattle.omega_read.specs.Inner.Gives.{Gives};

use crate::left::{Left, Stop};

// How many digits stand at the start.
#[tactic(auto, using(crate::proofs::Runs::runs))]
pub fn digits_len(bytes: &[u8]) -> usize
    ensures run { run is_ascii_digit bytes.now ≡ (take result bytes.now, drop result bytes.now) }
    ensures within { result ≤ length bytes.now }
{
    for (i, b) in bytes.iter().enumerate() {
        if !b.is_ascii_digit() {
            return i;
        }
    }
    bytes.len()
}

// Whether digits are one digit, or more of which the first is no zero.
fn is_plain_text(digits: &[u8]) -> bool
    ensures { result ≡ is_plain digits.now }
{
    match digits {
        [] => false,
        [_] => true,
        [first, _, ..] => *first != b'0',
    }
}

// The number that digits stand for, where it is one of 64 bits.
#[tactic(auto, using(crate::proofs::Runs::values))]
pub fn value(digits: &[u8]) -> Option<u64>
    ensures { MatchOption result (2 ^ 64 ≤ value_of digits.now) (λ n. (n ≡ value_of digits.now) × (n < 2 ^ 64)) }
{
    let mut n = 0u64;
    for d in digits {
        n = n
            .checked_mul(10)?
            .checked_add(u64::from(d.saturating_sub(b'0')))?;
    }
    Some(n)
}

// A number in decimal with no leading zero, below 2^64.
#[tactic(auto, unfolding(omega_spelling::specs::Reading::number_at))]
pub fn number_of(left: &mut Left<'_>) -> Result<u64, Stop>
    ensures { Gives (λ n. n) result left.new.rest.now (number_at left.old.rest.now) }
{
    let n = digits_len(left.rest);
    let (digits, rest) = left.rest.split_at(n);
    if !is_plain_text(digits) {
        return Err(Stop::NotOmega);
    }
    match value(digits) {
        None => Err(Stop::NotOmega),
        Some(number) => {
            left.rest = rest;
            Ok(number)
        }
    }
}

// A number behind a minus sign: from 1 to 2^63.
#[tactic(auto, unfolding(omega_spelling::specs::TermReading::negative_at))]
fn negative_of(left: &mut Left<'_>) -> Result<i64, Stop>
    ensures { Gives (λ z. z) result left.new.rest.now (negative_at left.old.rest.now) }
{
    let number = number_of(left)?;
    if number == 0 || number > 1 << 63 {
        return Err(Stop::NotOmega);
    }
    Ok(negated(number))
}

// The number below zero with this distance from it.
fn negated(number: u64) -> i64
    requires { 0 < number × number ≤ 2 ^ 63 }
    ensures { result ≡ negsuc (number - 1) }
{
    -((number - 1) as i64) - 1
}

// A number below 2^63.
#[tactic(auto, unfolding(omega_spelling::specs::TermReading::positive_at))]
fn positive_of(left: &mut Left<'_>) -> Result<i64, Stop>
    ensures { Gives (λ z. z) result left.new.rest.now (positive_at left.old.rest.now) }
{
    let number = number_of(left)?;
    match i64::try_from(number) {
        Ok(z) => Ok(z),
        Err(_) => Err(Stop::NotOmega),
    }
}

// A number of signed 64 bits. Zero has no sign.
#[tactic(auto, unfolding(omega_spelling::specs::TermReading::signed_at))]
pub fn signed_of(left: &mut Left<'_>) -> Result<i64, Stop>
    ensures { Gives (λ z. z) result left.new.rest.now (signed_at left.old.rest.now) }
{
    if left.eat(b"-") {
        return negative_of(left);
    }
    positive_of(left)
}
