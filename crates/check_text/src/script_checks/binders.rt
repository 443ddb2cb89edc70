//! Which line binds a name, and which names are used.
ghost use Rattle.std.specs.Prelude.{◌≡◌, ℕ, List, IfOk};
ghost use Rattle.indexmap.specs.IndexMap.{get};
ghost use Rattle.indexmap.specs.IndexSet.{contains};
ghost use Rattle.text_words.specs.contracts.names.NamePartialEq.TheImpl.{eq-value};
ghost use Rattle.check_text.specs.Binders.{binder, is_used};

use crate::script_checks::givers::is_one;
use crate::script_checks::mentions::Mention;
use crate::script_checks::outlines::Outline;
use indexmap::{IndexMap, IndexSet};
use std::alloc::{AllocError, Global};
use text_words::Name;

/// The last line that binds each name.
pub fn binders_of(
    alloc: Global,
    outlines: &[Outline],
) -> Result<IndexMap<Name, Outline>, AllocError>
    ensures { IfOk result (λ map. (name : List ℕ) → get eq-value.it map name ≡ binder name outlines.now) }
{
    let mut binders = IndexMap::new(alloc);
    for outline in outlines {
        if let Some(name) = outline.binds {
            binders.insert(name, *outline)?;
        }
    }
    Ok(binders)
}

/// The names that are used.
pub fn used_of(alloc: Global, mentions: &[Mention]) -> Result<IndexSet<Name>, AllocError>
    ensures { IfOk result (λ set. (name : List ℕ) → contains eq-value.it set name ≡ is_used name mentions.now) }
{
    let mut used = IndexSet::new(alloc);
    for mention in mentions {
        used.insert(mention.name)?;
    }
    Ok(used)
}

/// Whether a name is among those that are used.
pub fn is_used(name: &Name, mentions: &[Mention]) -> bool
    ensures { result ≡ is_used name.now mentions.now }
{
    for mention in mentions {
        if is_one(name, &mention.name) {
            return true;
        }
    }
    false
}
