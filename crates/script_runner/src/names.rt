//! The names of a script, with what they are bound to.
ghost use Rattle.std.specs.Prelude.{◌≡◌, ◌==◌, ◌++◌, ℕ, List, [], ◌∷◌, IfOk, OnOk, OnErr, nat_eq, if◌then◌else◌};
ghost use Rattle.std.specs.Option.{option_or};
ghost use Rattle.call_text.specs.declared.known_names.Named.{Named as NamedValue};
ghost use Rattle.call_text.specs.Known.{start_values};
ghost use Rattle.indexmap.specs.IndexMap.{get, IsUnchanged};
ghost use Rattle.call_text.specs.RunNames.{AreNames};
ghost use Rattle.script_rules.specs.Names.{bound};
ghost use Rattle.script_runner.specs.Names.{all_bound, first_name, AreFirst};
ghost use Rattle.script_runner.specs.Shared.{object_in};

use base::{NoMemory, ObjectId};
use call_text::names_text::write_names;
use call_text::{Known, Named, Value, start_names};
use indexmap::IndexMap;
use std::alloc::{AllocError, Global};
use std::marker::Model;
use text_words::Name;

/// Names with what they are bound to, in the order in which they were bound. A contract sees their
/// list.
#[derive(Drop)]
pub struct BoundNames {
    values: IndexMap<Name, Value>,
    first_names: FirstNames,
}

impl Model for BoundNames {
    ghost use Rattle.std.specs.Prelude.{List};
    ghost use Rattle.call_text.specs.declared.known_names.Named.{Named};
    ghost use Rattle.script_runner.specs.Names.{named_of, AreFirst};

    ghost Value = { List Named };

    ghost view = { λ a. named_of a.values.entries };

    ghost invariant = { λ a. AreFirst a.first_names (named_of a.values.entries) };
}

impl BoundNames {
    /// No names. It takes no memory before one is bound.
    pub fn none(alloc: Global) -> BoundNames
        ensures { result ≡ [] }
    {
        BoundNames {
            values: IndexMap::new(alloc),
            first_names: FirstNames::none(alloc),
        }
    }

    /// The names that are known at the start of each script.
    pub fn start(alloc: Global) -> Result<BoundNames, AllocError>
        ensures { IfOk result (λ names. names ≡ start_values) }
    {
        let mut names = BoundNames::none(alloc);
        match names.bind_start() {
            Ok(()) => Ok(names),
            Err(error) => {
                drop(names);
                Err(error)
            }
        }
    }

    /// Binds the names that are known at the start, before any other.
    fn bind_start(&mut self) -> Result<(), AllocError>
        requires { self.old ≡ [] }
        ensures { OnOk result (self.new ≡ start_values) }
    {
        let [root, boot, dev] = start_names();
        self.bind(&root)?;
        self.bind(&boot)?;
        self.bind(&dev)
    }

    /// Binds a name. One that is bound already stays bound to what it was. An `Err` changes
    /// nothing.
    pub fn bind(&mut self, named: &Named) -> Result<(), AllocError>
        ensures ok { OnOk result (self.new ≡ bound named.now self.old) }
        ensures err { OnErr result (self.new ≡ self.old) }
    {
        if !self.values.contains_key(&named.name) {
            // With room for the name, the insertion cannot fail once the name is noted.
            self.values.reserve(1)?;
            self.first_names.note(named)?;
            self.values.insert(named.name, named.value)?;
        }
        Ok(())
    }

    /// Binds the names of others, in their order. One that is bound already stays bound to what it was.
    pub fn bind_all(&mut self, others: &BoundNames) -> Result<(), AllocError>
        ensures { OnOk result (self.new ≡ all_bound others.now self.old) }
    {
        for (name, value) in &others.values {
            self.bind(&Named {
                name: *name,
                value: *value,
            })?;
        }
        Ok(())
    }

    /// Their text, in their order, of which they are read again. Want of memory is the only error.
    pub fn text(&self, alloc: Global) -> Result<Vec<u8>, NoMemory>
        ensures { IfOk result (λ text. AreNames text.items self.now) }
    {
        let mut names = Vec::new(alloc);
        for (name, bound) in self.values.iter() {
            names.push(Named {
                name: *name,
                value: *bound,
            })?;
        }
        write_names(alloc, names.as_slice())
    }
}

impl Known for BoundNames {
    ghost names = { λ names. names };

    fn value_of(&self, name: &Name) -> Option<Value> {
        // A look-up hashes the name even where there is none to find.
        if self.values.is_empty() {
            return None;
        }
        self.values.get(name).copied()
    }

    fn name_of(&self, value: &Value) -> Option<Name> {
        self.first_names.name_of(value)
    }
}

/// The first name that is bound to each object and to each category, by their numbers.
#[derive(Drop)]
struct FirstNames {
    objects: IndexMap<u64, Name>,
    categories: IndexMap<u64, Name>,
}

impl FirstNames {
    /// No names. It takes no memory before one is noted.
    fn none(alloc: Global) -> FirstNames
        ensures { AreFirst result [] }
    {
        FirstNames {
            objects: IndexMap::new(alloc),
            categories: IndexMap::new(alloc),
        }
    }

    /// Notes a name that is bound after all others. An `Err` changes nothing.
    fn note(&mut self, named: &Named) -> Result<(), AllocError>
        ensures ok { OnOk result ((names : List NamedValue) → AreFirst self.old names → AreFirst self.new (names ++ named.now ∷ [])) }
        ensures err { OnErr result ((names : List NamedValue) → AreFirst self.old names → AreFirst self.new names) }
    {
        match &named.value {
            Value::Object(id) => note_first(&mut self.objects, id.number(), &named.name),
            Value::Category(category) => {
                note_first(&mut self.categories, category.0, &named.name)
            }
        }
    }

    /// The first name that is bound to the value.
    fn name_of(&self, value: &Value) -> Option<Name>
        ensures { result ≡ first_name self.now value.now }
    {
        match value {
            Value::Object(id) => self.objects.get(&id.number()).copied(),
            Value::Category(category) => self.categories.get(&category.0).copied(),
        }
    }
}

/// Notes the name for the number. A number that has a name keeps it. An `Err` changes nothing.
fn note_first(names: &mut IndexMap<u64, Name>, number: u64, name: &Name) -> Result<(), AllocError>
    ensures ok { OnOk result ((n : ℕ) → get nat_eq names.new n ≡ option_or (get nat_eq names.old n) (if number == n then Some name.now else None)) }
    ensures err { OnErr result (IsUnchanged names.old names.new) }
{
    if !names.contains_key(&number) {
        names.insert(number, *name)?;
    }
    Ok(())
}

/// The object that a name is bound to.
pub fn object_in(bound: &Option<Value>) -> Option<ObjectId>
    ensures { result ≡ object_in bound.now }
{
    match bound {
        Some(Value::Object(id)) => Some(*id),
        Some(Value::Category(_)) => None,
        None => None,
    }
}

/// The names that a worker knows: what its own lines bound in this phase, and what was bound in earlier ones.
#[derive(Clone, Copy)]
pub struct WorkerNames<'a> {
    /// What its own lines bound.
    pub own: &'a BoundNames,
    /// What was bound before.
    pub earlier: &'a BoundNames,
}

impl<'a> Known for WorkerNames<'a> {
    ghost names = { λ names. names.own.now ++ names.earlier.now };

    fn value_of(&self, name: &Name) -> Option<Value> {
        match self.own.value_of(name) {
            Some(value) => Some(value),
            None => self.earlier.value_of(name),
        }
    }

    fn name_of(&self, value: &Value) -> Option<Name> {
        match self.own.name_of(value) {
            Some(name) => Some(name),
            None => self.earlier.name_of(value),
        }
    }
}
