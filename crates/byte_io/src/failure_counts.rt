//! The count of calls that failed.
ghost use Rattle.std.specs.Prelude.{◌≡◌, if◌then◌else◌};
ghost use Rattle.byte_io.specs.Calls.{one_more};

// The count after a call. At its greatest value it stays.
pub(crate) fn count_after(failures: u64, failed: bool) -> u64
    ensures { result ≡ (if failed then one_more failures else failures) }
{
    if failed {
        failures.saturating_add(1)
    } else {
        failures
    }
}
