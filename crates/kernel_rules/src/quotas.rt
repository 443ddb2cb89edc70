//! A change of a quota: pages that go up or down.
ghost use Rattle.std.specs.Prelude.{◌≡◌};
ghost use Rattle.kernel_rules.specs.Conditions.{pages_down, pages_up};

/// By how many pages a change of quota goes up.
pub fn pages_up(change: i32) -> u32
    ensures { result ≡ pages_up change }
{
    if change < 0 { 0 } else { change as u32 }
}

/// By how many it goes down.
pub fn pages_down(change: i32) -> u32
    ensures { result ≡ pages_down change }
{
    if change < 0 { change.unsigned_abs() } else { 0 }
}
