//! That an exact script is its own form.
ghost use Rattle.std.specs.Prelude.{◌≡◌, ℕ, List, []};
ghost use Rattle.call_text.specs.Script.{IsScript};
ghost use Rattle.call_text.specs.declared.phases.Line.{Line};
ghost use Rattle.call_text.specs.Scripts.{kept_numbers, plain_text};

/// A law, which does nothing when it is called: what spells a script is its own exact form, and its lines have their own numbers.
pub fn exact_is_plain()
    ensures text { (bytes : List ℕ) (phases : List (List Line)) → IsScript bytes phases → plain_text bytes ≡ bytes }
    ensures numbers { (bytes : List ℕ) (phases : List (List Line)) → IsScript bytes phases → kept_numbers bytes ≡ [] }
{}
