//! Who is told of what goes.
ghost use Rattle.std.specs.Prelude.{◌≡◌};
ghost use Rattle.containers.specs.declared.visitor.Located.{Located};

use base::{Meter, ObjectId, Slot};

/// Where an object lies: its id and its slot.
#[derive(Clone, Copy, PartialEq, Eq, Debug)]
pub struct Located {
    /// The object's id.
    pub id: ObjectId,
    /// Where its record lies, from 0 and below the number of objects that there is room for.
    pub slot: Slot,
}

/// Is handed each link and each object that goes. What it makes of them is its own to say: `link_gives` and
/// `object_gives` relate the visitor before a call, what it is handed, and the visitor after.
pub trait Visitor {
    ghost link_gives: { Self → Located → Located → Self → Type 0 };

    ghost object_gives: { Self → Located → Self → Type 0 };

    /// A link went: this container listed this object.
    fn link(&mut self, container: Located, object: Located)
        ensures { link_gives self.old container object self.new };

    /// An object went, and listed nothing any more. What cells are read then is counted, and no label is scanned.
    fn object(&mut self, object: Located, meter: &mut Meter)
        ensures gives { object_gives self.old object self.new }
        ensures scans { meter.new.scans ≡ meter.old.scans };
}
