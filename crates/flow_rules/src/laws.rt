//! The law of flows.
ghost use Rattle.flow_rules.specs.Laws.{LevelsRise};

/// Where there is a flow outside a category from one object to another, the level of the first before
/// the first hand-over is at most the level of the other after the last. Runs begin at any well-formed state.
pub fn levels_rise()
    ensures { LevelsRise }
{}
