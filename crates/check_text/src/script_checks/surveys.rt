//! What is known of the lines of a script.
ghost use Rattle.std.specs.Prelude.{◌≡◌, IfOk, OnOk};
ghost use Rattle.check_text.specs.Binders.{is_used};
ghost use Rattle.check_text.specs.Outlines.{outlines_from};
ghost use Rattle.check_text.specs.Mentions.{script_mentions};
ghost use Rattle.check_text.specs.Surveys.{survey_of, knows, knows_worker, with_unknown, unknown, unused};

use crate::script_checks::binders::{binders_of, is_used, used_of};
use crate::script_checks::givers::{gives, is_kind, is_known};
use crate::script_checks::mentions::{Mention, put_script};
use crate::script_checks::outlines::{Outline, put_outlines};
use call_text::Script;
use indexmap::{IndexMap, IndexSet};
use std::alloc::{AllocError, Global};
use std::marker::Model;
use text_words::Name;

/// The lines of a script, and the names that they use. A contract sees both lists.
#[derive(Drop)]
pub struct Survey {
    outlines: Vec<Outline>,
    mentions: Vec<Mention>,
    binders: IndexMap<Name, Outline>,
    used: IndexSet<Name>,
}

impl Model for Survey {
    ghost use Rattle.std.specs.Prelude.{◌≡◌, ℕ, List};
    ghost use Rattle.indexmap.specs.IndexMap.{get};
    ghost use Rattle.indexmap.specs.IndexSet.{contains};
    ghost use Rattle.text_words.specs.contracts.names.NamePartialEq.TheImpl.{eq-value};
    ghost use Rattle.check_text.specs.Binders.{binder, is_used};
    ghost use Rattle.check_text.specs.Surveys.{Surveyed};

    ghost Value = { Surveyed };

    ghost view = { λ s. record { outlines = s.outlines.items; mentions = s.mentions.items } };

    ghost invariant = { λ s.
        ((name : List ℕ) → get eq-value.it s.binders name ≡ binder name s.outlines.items)
        × ((name : List ℕ) → contains eq-value.it s.used name ≡ is_used name s.mentions.items) };
}

impl Survey {
    /// Looks at the lines of a script.
    pub fn of(alloc: Global, script: &Script) -> Result<Survey, AllocError>
        ensures { IfOk result (λ survey. survey ≡ survey_of script.now) }
    {
        let mut outlines = Vec::new(alloc);
        put_outlines(&mut outlines, script.phases.as_slice())?;
        let mut mentions = Vec::new(alloc);
        put_script(&mut mentions, script.phases.as_slice())?;
        let binders = binders_of(alloc, outlines.as_slice())?;
        let used = used_of(alloc, mentions.as_slice())?;
        Ok(Survey {
            outlines,
            mentions,
            binders,
            used,
        })
    }

    /// Whether a line before gives the name to this one, or each script knows it.
    fn knows(&self, line: &Outline, mention: &Mention) -> bool
        ensures { result ≡ knows self.now.outlines line.now mention.now }
    {
        if !mention.category && is_known(&mention.name) {
            return true;
        }
        match self.binders.get(&mention.name) {
            Some(from) => {
                is_kind(mention.category, from) && gives(self.outlines.as_slice(), from, line)
            }
            None => false,
        }
    }

    /// Whether the line's worker is bound before its phase.
    pub fn knows_worker(&self, line: &Outline) -> bool
        ensures { result ≡ knows_worker self.now.outlines line.now }
    {
        if is_known(&line.worker) {
            return true;
        }
        match self.binders.get(&line.worker) {
            Some(from) => !from.category && from.phase < line.phase,
            None => false,
        }
    }

    /// Adds a name to those that are found, where no line gives it to this one and it is not among them.
    fn put_unknown(
        &self,
        found: &mut Vec<Mention>,
        line: &Outline,
        mention: &Mention,
    ) -> Result<(), AllocError>
        ensures { OnOk result (found.new.items ≡ with_unknown self.now.outlines line.now found.old.items mention.now) }
    {
        if self.knows(line, mention) || is_used(&mention.name, found.as_slice()) {
            return Ok(());
        }
        found.push(*mention)?;
        Ok(())
    }

    /// The names that no line gives to this one, each once.
    pub fn unknown(
        &self,
        alloc: Global,
        line: &Outline,
        mentions: &[Mention],
    ) -> Result<Vec<Mention>, AllocError>
        ensures { IfOk result (λ found. found.items ≡ unknown self.now.outlines line.now mentions.now) }
    {
        let mut found = Vec::new(alloc);
        for mention in mentions {
            self.put_unknown(&mut found, line, mention)?;
        }
        Ok(found)
    }

    /// The name that the line binds, where no line uses it.
    pub fn unused(&self, line: &Outline) -> Option<Name>
        ensures { result ≡ unused self.now.mentions line.now }
    {
        let Some(name) = line.binds else {
            return None;
        };
        if self.used.contains(&name) {
            return None;
        }
        Some(name)
    }
}
