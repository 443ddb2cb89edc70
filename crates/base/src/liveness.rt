//! The law of liveness.
ghost use Rattle.base.specs.Live.{LiveByPath};

/// A law, which does nothing when it is called: what the test `is_live` calls live is exactly what a path of entries
/// leads to from the root.
pub fn live_by_path()
    ensures { LiveByPath }
{}
