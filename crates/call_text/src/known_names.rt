//! Names with what they are bound to.
ghost use Rattle.std.specs.Prelude.{◌≡◌, List};
ghost use Rattle.std.specs.Str.{bytes_eq};
ghost use Rattle.call_text.specs.declared.known_names.Named.{Named as NamedValue};
ghost use Rattle.call_text.specs.Known.{value_of, name_of, is_value, start_values};

use base::{Category, ObjectId};
use text_words::Name;

/// What a name can be bound to.
#[derive(Clone, Copy, PartialEq, Eq)]
pub enum Value {
    /// An object, live or not.
    Object(ObjectId),
    /// A category.
    Category(Category),
}

impl Value {
    /// Whether both are one object, or one category.
    pub fn is_same(&self, other: &Value) -> bool
        ensures { result ≡ is_value self.now other.now }
    {
        match (self, other) {
            (Value::Object(a), Value::Object(b)) => a.number() == b.number(),
            (Value::Category(a), Value::Category(b)) => a.0 == b.0,
            _ => false,
        }
    }
}

/// A name with what it is bound to.
#[derive(Clone, Copy)]
pub struct Named {
    /// The name: 1 to 16 bytes.
    pub name: Name,
    /// What it is bound to.
    pub value: Value,
}

/// The names that are known at the start of each script: root, boot and dev, with the ids of the root container, the
/// first thread and the device.
pub fn start_names() -> [Named; 3]
    ensures { result ≡ start_values }
{
    [
        Named {
            name: Name::from_slice(b"root"),
            value: Value::Object(ObjectId::new(1)),
        },
        Named {
            name: Name::from_slice(b"boot"),
            value: Value::Object(ObjectId::new(2)),
        },
        Named {
            name: Name::from_slice(b"dev"),
            value: Value::Object(ObjectId::new(3)),
        },
    ]
}

/// Names that are known. Where a name or a value stands in their list twice, the first counts.
pub trait Known {
    /// The names, in the order in which they count.
    ghost names: { Self → List NamedValue };

    /// What the name is bound to.
    fn value_of(&self, name: &Name) -> Option<Value>
        ensures { result ≡ value_of name.now (names self.now) };

    /// The first name that is bound to the value.
    fn name_of(&self, value: &Value) -> Option<Name>
        ensures { result ≡ name_of value.now (names self.now) };
}

/// Names in a list, each looked up from its beginning.
#[derive(Clone, Copy)]
pub struct NameList<'a> {
    /// The names, in the order in which they count.
    pub named: &'a [Named],
}

impl<'a> Known for NameList<'a> {
    ghost names = { λ list. list.named.now };

    fn value_of(&self, name: &Name) -> Option<Value> {
        value_in(self.named, name)
    }

    fn name_of(&self, value: &Value) -> Option<Name> {
        name_in(self.named, value)
    }
}

fn is_name(one: &Name, other: &Name) -> bool
    ensures { result ≡ bytes_eq one.now other.now }
{
    one.as_slice() == other.as_slice()
}

fn value_in(named: &[Named], name: &Name) -> Option<Value>
    ensures { result ≡ value_of name.now named.now }
{
    for entry in named {
        if is_name(&entry.name, name) {
            return Some(entry.value);
        }
    }
    None
}

fn name_in(named: &[Named], value: &Value) -> Option<Name>
    ensures { result ≡ name_of value.now named.now }
{
    for entry in named {
        if entry.value.is_same(value) {
            return Some(entry.name);
        }
    }
    None
}
