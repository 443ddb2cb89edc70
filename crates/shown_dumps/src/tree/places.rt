//! Where objects stand in the tree.
ghost use Rattle.std.specs.Prelude.{◌≡◌, ◌^◌, ◌<◌};
ghost use Rattle.shown_dumps.specs.TreePlaces.{root, below};

use base::ObjectId;

/// A place at which an object is listed.
#[derive(Clone, Copy)]
pub struct Place {
    /// How many containers lead there, from the root, which stands at 0.
    pub depth: usize,
    /// The container that lists the object there. For the root there is none, and this is 0.
    pub container: ObjectId,
    /// The object.
    pub id: ObjectId,
}

impl Place {
    /// Where the root stands: in no container.
    pub fn root() -> Place
        ensures { result ≡ root }
    {
        Place {
            depth: 0,
            container: ObjectId::new(0),
            id: ObjectId::root(),
        }
    }

    /// The place of what the object there lists.
    pub fn below(&self, id: ObjectId) -> Place
        requires { self.now.depth < 2 ^ 62 }
        ensures { result ≡ below self.now id }
    {
        Place {
            depth: self.depth + 1,
            container: self.id,
            id,
        }
    }
}
