//! That the page has each tree whole.
ghost use Rattle.std.specs.Prelude.{◌≡◌, ℕ, List, [], map};
ghost use Rattle.call_text.specs.declared.known_names.Named.{Named};
ghost use Rattle.kernel_rules.specs.State.{State};
ghost use Rattle.page_text.specs.Edits.{patched_all};
ghost use Rattle.page_text.specs.Steps.{Turn, steps_of, states_from, step_edits, tree_lines};

/// A law, which does nothing when it is called: the edits of the steps, one after another, from no line on, make the tree of each
/// state that events and reads lead to, from the first to the last.
pub fn trees_are_whole()
    ensures { (names : List Named) (lines : List (List ℕ)) (s : State) (turns : List Turn)
        → patched_all [] (map step_edits (steps_of names lines s turns)) ≡ map (tree_lines names) (states_from s turns) }
{}
