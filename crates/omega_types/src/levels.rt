// Indexes and levels, which fit 64 bits.
ghost use Rattle.std.specs.Prelude.{◌≡◌, ◌+◌, ◌-◌, ◌^◌, MatchResult};

use omega_kinds::Mem;

/// The next index or level. `Err` is out of memory, exactly after the last number of 64 bits: each level is a variable in
/// scope, and no memory has room for as many as there are numbers.
pub fn next_level(level: u64) -> Result<u64, Mem>
    ensures { MatchResult result (λ next. next ≡ level + 1) (λ _. level ≡ 2 ^ 64 - 1) }
{
    if level == u64::MAX {
        Err(Mem)
    } else {
        Ok(level + 1)
    }
}
