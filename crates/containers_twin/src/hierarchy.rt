//! What both machines offer.
ghost use Rattle.std.specs.Prelude.{◌≡◌, ◌↔◌, ◌%◌, IsTrue};

use base::{NoMemory, ObjectId};
use containers::Visitor;

/// Whether an id is that of a container: the odd ids are, so the root is, and the even ids are not.
pub fn is_container(id: ObjectId) -> bool
    ensures { IsTrue result ↔ (id % 2 ≡ 1) }
{
    id.number() % 2 == 1
}

/// Containers and what they list. A call tests what it needs; where that does not hold it answers false or nothing, and
/// nothing changes. An error is want of memory.
pub trait Hierarchy {
    /// Adds an object under an id above all others, as the last entry of a container that is there, where there is room
    /// for an object and a link.
    fn create(&mut self, container: ObjectId, id: ObjectId) -> Result<bool, NoMemory>;

    /// Adds a link to an object as the last entry of a container. Both are there, the object is not the root and not yet
    /// listed there, a container is listed by older ones alone, and there is room for a link.
    fn link(&mut self, container: ObjectId, object: ObjectId) -> Result<bool, NoMemory>;

    /// Takes out a link that is there, and all to which no path leads any more. The visitor is handed what went.
    fn unref<V: Visitor>(
        &mut self,
        container: ObjectId,
        object: ObjectId,
        visitor: &mut V,
    ) -> Result<bool, NoMemory>;

    /// The first that lists an object, of those that list it in the order of linking. Nothing for what is not there, or
    /// for the root.
    fn parent(&mut self, object: ObjectId) -> Option<ObjectId>;

    /// Writes a container's entries from a place on into a window, as far as both go, and tells how many those are.
    fn entries(&mut self, id: ObjectId, from: usize, window: &mut [ObjectId]) -> Option<usize>;

    /// How many objects there are.
    fn count(&self) -> usize;

    /// The id at a place among all that are there, which rise.
    fn live(&mut self, place: usize) -> Option<ObjectId>;
}
