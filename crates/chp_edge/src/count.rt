//! Counts that saturate.

ghost use Rattle.std.specs.Prelude.{◌≡◌, ◌<◌, ◌^◌};
ghost use Rattle.chp_edge.specs.Faults.{Rose, one_higher};

/// Adds one to the count, which saturates at 2^64 - 1.
pub fn count_up(count: &mut u64)
    ensures exact { count.new ≡ one_higher count.old }
    ensures rose { Rose count.old count.new }
    ensures counted { count.new < 2 ^ 64 }
{
    *count = count.saturating_add(1);
}
