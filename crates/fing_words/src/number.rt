// Numbers of the command line.
ghost use Rattle.std.specs.Prelude.{ℕ, MatchOption};
ghost use Rattle.fing_words.specs.Numbers.{IsNumberFrom};

// The number that the text writes in one to eight digits, where it is from `least` to `most`.
pub(crate) fn number_from(text: &str, least: u32, most: u32) -> Option<u32>
    ensures { MatchOption result ((value : ℕ) → IsNumberFrom least most text.now value → ⊥) (IsNumberFrom least most text.now) }
{
    if text.len() > 8 || text.starts_with('+') {
        return None;
    }
    let value: u32 = text.parse().ok()?;
    (least..=most).contains(&value).then_some(value)
}
