// Whether too many parentheses are open at once.
ghost use Rattle.std.specs.Prelude.{◌≡◌, ◌≤◌};
ghost use Rattle.omega_spelling.specs.Refusals.{after, opens, closes, is_too_deep};
ghost use Rattle.omega_read.specs.Inner.Scan.{place_of};

// Where a byte stands: outside texts, in one, or in one behind a backslash that is not itself behind one.
#[derive(Clone, Copy, Debug)]
pub enum Spot {
    Outside,
    Inside,
    Escaped,
}

// The place of the byte behind this one.
pub fn spot_after(spot: Spot, b: u8) -> Spot
    ensures { place_of result ≡ after (place_of spot) b }
{
    match spot {
        Spot::Outside => {
            if b == b'"' {
                Spot::Inside
            } else {
                Spot::Outside
            }
        }
        Spot::Inside => {
            if b == b'\\' {
                Spot::Escaped
            } else if b == b'"' {
                Spot::Outside
            } else {
                Spot::Inside
            }
        }
        Spot::Escaped => Spot::Inside,
    }
}

// How many parentheses this byte opens.
fn opened(spot: Spot, b: u8) -> u64
    ensures value { result ≡ opens (place_of spot) b }
    ensures small { result ≤ 1 }
{
    match spot {
        Spot::Outside => { if b == b'(' { 1 } else { 0 } }
        _ => 0,
    }
}

// How many parentheses this byte closes.
fn closed(spot: Spot, b: u8) -> u64
    ensures value { result ≡ closes (place_of spot) b }
    ensures small { result ≤ 1 }
{
    match spot {
        Spot::Outside => { if b == b')' { 1 } else { 0 } }
        _ => 0,
    }
}

// Whether in some prefix more than 4,000 parentheses are open.
#[tactic(auto, unfolding(omega_spelling::specs::Refusals::is_too_deep), using(crate::proofs::Scans::scans))]
pub fn too_deep(bytes: &[u8]) -> bool
    ensures { result ≡ is_too_deep bytes.now }
{
    let mut spot = Spot::Outside;
    let mut opens = 0u64;
    let mut closes = 0u64;
    for b in bytes {
        opens += opened(spot, *b);
        closes += closed(spot, *b);
        if closes + 4000 < opens {
            return true;
        }
        spot = spot_after(spot, *b);
    }
    false
}
