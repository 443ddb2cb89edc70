//! That the graph is whole.
ghost use Rattle.std.specs.Prelude.{◌≡◌, ℕ, ◌+◌, List};
ghost use Rattle.call_text.specs.declared.known_names.Named.{Named};
ghost use Rattle.kernel_rules.specs.State.{quota_at};
ghost use Rattle.plain_state.specs.StateOf.{state_of};
ghost use Rattle.shown_dumps.specs.Dots.{arrows_from, dot_from};
ghost use Rattle.shown_dumps.specs.TreePlaces.{root};

use plain_state::PlainState;

/// A law, which does nothing when it is called: nothing stands deeper than the graph looks, so more levels show no more.
pub fn graph_is_whole(state: &PlainState)
    ensures objects { (names : List Named) (reached : List ℕ) (more : ℕ)
        → dot_from names (state_of state.now) reached (quota_at (state_of state.now) 1 + more) root
        ≡ dot_from names (state_of state.now) reached (quota_at (state_of state.now) 1) root }
    ensures arrows { (more : ℕ) → arrows_from (state_of state.now) (quota_at (state_of state.now) 1 + more) root
        ≡ arrows_from (state_of state.now) (quota_at (state_of state.now) 1) root }
{
    state.well_formed();
}
