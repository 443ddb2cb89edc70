//! That the tree is whole.
ghost use Rattle.std.specs.Prelude.{◌≡◌, ℕ, ◌+◌, List, Option};
ghost use Rattle.call_text.specs.declared.known_names.Named.{Named};
ghost use Rattle.kernel_rules.specs.State.{quota_at};
ghost use Rattle.plain_state.specs.StateOf.{state_of};
ghost use Rattle.shown_dumps.specs.TreePlaces.{root};
ghost use Rattle.shown_dumps.specs.Trees.{tree_from, whole_tree};

use plain_state::PlainState;

/// A law, which does nothing when it is called: nothing stands deeper than the tree looks, so more levels show no more.
pub fn tree_is_whole(state: &PlainState)
    ensures { (names : List Named) (asked : Option ℕ) (more : ℕ)
        → tree_from names asked (state_of state.now) (quota_at (state_of state.now) 1 + more) root
        ≡ whole_tree names asked (state_of state.now) }
{
    state.well_formed();
}
