// Calls that are set to fail by their number.
ghost use Rattle.std.specs.Prelude.{◌≡◌};
ghost use Rattle.outside.specs.Memory.{is_set};

// Whether the call with this number is among those that are to fail.
pub fn is_set_to_fail(failing: &[u32], call: u64) -> bool
    ensures { result ≡ is_set failing.now call }
{
    failing.iter().any(|set| u64::from(*set) == call)
}
