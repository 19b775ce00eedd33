// Numbers that fields of fewer than eight bytes carry.
ghost use Rattle.std.specs.Prelude.{◌≡◌, ◌^◌, ◌<◌, ◌≤◌, MatchOption};

// Kept: there is no integer of three bytes to try to convert to.
pub(crate) fn three_bytes(n: u64) -> Option<u32>
    ensures { MatchOption result (2 ^ 24 ≤ n) (λ x. (x ≡ n) × (x < 2 ^ 24)) }
{
    if n >= 0x100_0000 {
        return None;
    }
    Some(n as u32)
}
