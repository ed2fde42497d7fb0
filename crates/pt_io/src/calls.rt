//! How the objects in memory count their calls, and which of these fail.
ghost use Rattle.std.specs.Prelude.{◌≡◌, ◌+◌, ◌↔◌, IsTrue, Contains};
ghost use Rattle.pt_io.specs.Memory.{one_more};

/// Counts a call, and says whether its number, from 1, is one of those that fail.
pub(crate) fn count_call(calls: &mut u64, fails: &[u64]) -> bool
    ensures counted { calls.new ≡ one_more calls.old }
    ensures asked { IsTrue result ↔ Contains fails.now (calls.old + 1) }
{
    match calls.checked_add(1) {
        Some(number) => {
            *calls = number;
            fails.contains(&number)
        }
        // No number names the calls after the last that can be counted.
        None => false,
    }
}
