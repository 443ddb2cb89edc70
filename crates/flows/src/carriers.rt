//! What flows from one object reach, by carriers.
ghost use Rattle.std.specs.Prelude.{◌≡◌, [], IfOk, OnOk};
ghost use Rattle.flows.specs.Carriers.{meets, takers, handed, carriers_after, reached, starts};

use crate::rising::{add, add_all, drop_id, has, put_all};
use crate::touches::Touch;
use base::{NoMemory, ObjectId};
use kernel_rules::Ids;
use std::alloc::Global;

// Whether one of these is the object, or a carrier.
fn meets(start: ObjectId, carriers: &[ObjectId], ids: &[ObjectId]) -> bool
    ensures { result ≡ meets start carriers.now ids.now }
{
    for id in ids {
        if *id == start || has(carriers, *id) {
            return true;
        }
    }
    false
}

// The thread of an event takes what it observes.
fn take(start: ObjectId, carriers: &mut Vec<ObjectId>, touch: &Touch) -> Result<(), NoMemory>
    ensures { OnOk result (carriers.new.items ≡ takers start carriers.old.items touch.now) }
{
    if touch.outside && meets(start, carriers, touch.observed.as_slice()) {
        add(carriers, touch.thread)?;
    }
    Ok(())
}

// What is reached in an event, with these carriers by then.
fn handed(taken: &[ObjectId], touch: &Touch) -> Ids
    ensures { result ≡ handed taken.now touch.now }
{
    if touch.outside && has(taken, touch.thread) {
        touch.modified
    } else {
        Ids::from_slice(&[])
    }
}

// What is reached in an event carries from then on, but a thread that does not stay outside.
fn settle(carriers: &mut Vec<ObjectId>, reached: &Ids, touch: &Touch) -> Result<(), NoMemory>
    requires { reached.now ≡ handed carriers.old.items touch.now }
    ensures { OnOk result (carriers.new.items ≡ carriers_after carriers.old.items touch.now) }
{
    add_all(carriers, reached.as_slice())?;
    if !(touch.outside && !touch.owner) {
        drop_id(carriers, touch.thread);
    }
    Ok(())
}

/// What flows from an object reach, rising.
pub fn reached(alloc: Global, touches: &[Touch], start: ObjectId) -> Result<Vec<ObjectId>, NoMemory>
    ensures { IfOk result (λ ids. ids.items ≡ reached start [] [] touches.now) }
{
    let mut carriers = Vec::new(alloc);
    let mut found = Vec::new(alloc);
    for touch in touches {
        take(start, &mut carriers, touch)?;
        let now = handed(&carriers, touch);
        put_all(&mut found, now.as_slice())?;
        settle(&mut carriers, &now, touch)?;
    }
    Ok(found)
}

/// What is observed, rising.
pub fn starts(alloc: Global, touches: &[Touch]) -> Result<Vec<ObjectId>, NoMemory>
    ensures { IfOk result (λ ids. ids.items ≡ starts [] touches.now) }
{
    let mut found = Vec::new(alloc);
    for touch in touches {
        put_all(&mut found, touch.observed.as_slice())?;
    }
    Ok(found)
}
