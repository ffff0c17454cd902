// The step of a search by halving.
ghost use Rattle.std.specs.Prelude.{◌≡◌, ◌≤◌, nat_lt, if◌then◌else◌};
ghost use Rattle.sem_key.specs.declared.limits.TheConstants.{ADDRESSES as ADDRESSES_SPEC};

use sem_key::ADDRESSES;

/// The step if the number, which must be at most `ADDRESSES`, is below the limit, and otherwise 0.
// The top bit of the difference decides it. A branch would be mispredicted every other time, which
// costs more than the rest of a search.
#[inline(always)]
pub fn step_below(step: usize, number: u64, limit: u64) -> usize
    ensures within { result ≤ step }
    ensures value { number ≤ ADDRESSES_SPEC
        → result ≡ (if nat_lt number limit then step else 0) }
{
    step * (number.wrapping_sub(limit.min(2 * ADDRESSES)) >> 63) as usize
}
