//! Links between containers and objects, and without memory.
use anyhow::Result;
use base::{Meter, NoMemory, ObjectId};
use containers::{Containers, Located, Visitor};
use happy_calls::look::{Look, agree};
use happy_calls::samples::meter_again;
use std::alloc::Global;

// Remembers the numbers of the first eight objects that it is handed, and how many links.
#[derive(Drop)]
struct Seen {
    links: u8,
    objects: [u64; 8],
    len: usize,
}

fn nothing_seen() -> Seen {
    Seen {
        links: 0,
        objects: [0; 8],
        len: 0,
    }
}

impl Visitor for Seen {
    ghost link_gives = { λ _ _ _ _. Unit {0} };

    ghost object_gives = { λ _ _ _. Unit {0} };

    fn link(&mut self, _container: Located, _object: Located) {
        self.links = self.links.saturating_add(1);
    }

    fn object(&mut self, object: Located, _meter: &mut Meter) {
        if self.len < 8 {
            self.objects[self.len] = object.id.number();
            self.len += 1;
        }
    }
}

// The root lists 4 and 6, 4 lists 5 and 6.
fn family(alloc: Global, meter: &mut Meter) -> Result<Containers<char>, NoMemory> {
    let mut tree = Containers::boot(alloc, 4, 'r')?;
    let root = ObjectId::root();
    tree.create(root, ObjectId::new(4), 'a', meter);
    tree.create(ObjectId::new(4), ObjectId::new(5), 'b', meter);
    tree.create(root, ObjectId::new(6), 'c', meter);
    tree.link(ObjectId::new(4), ObjectId::new(6), meter);
    Ok(tree)
}

// Where an object lies that is there.
fn found(tree: &Containers<char>, id: ObjectId, meter: &mut Meter) -> Located {
    match tree.find(id, meter) {
        Some(slot) => Located { id, slot },
        None => unreachable!(),
    }
}

fn links_are_kept_in_order(alloc: Global, look: &mut Look) -> Result<()> {
    look.part("links_are_kept_in_order");
    let mut meter = Meter::new(alloc)?;
    let mut tree = family(alloc, &mut meter)?;
    let [root, four, five, six] = [1, 4, 5, 6].map(ObjectId::new);
    look.sees(agree(tree.len(), 4));
    look.sees(agree(tree.live(2, &mut meter), five));
    look.sees(agree(tree.entry_count(root, &mut meter), 2));
    look.sees(agree(tree.parent(five, &mut meter), Some(four)));
    look.sees(agree(tree.parent(root, &mut meter), None));
    look.sees(tree.is_listed(four, six, &mut meter));
    look.sees(!tree.is_listed(root, five, &mut meter));

    let mut window = [root; 3];
    look.sees(agree(tree.entries(four, 0, &mut window, &mut meter), 2));
    look.sees(agree(window, [five, six, root]));
    look.sees(agree(tree.entries(four, 1, &mut window, &mut meter), 1));
    look.sees(agree(window, [six, six, root]));

    look.sees(agree(meter.scans(), 0));
    if let Some(slot) = tree.find(six, &mut meter) {
        *tree.get_mut(slot) = 'x';
        look.sees(agree(*tree.get(slot), 'x'));
    }
    Ok(())
}

// An id is found by halves here, 5 with two probes and the others with three. The first link and its container are two more.
// Where that is another container, the number of links is read, and where there are several the last link and its container.
// Where that is another one too, a walk reads the number again and the first link, then each link's container and the next
// link. A peek at an id is one probe.
fn a_walk_counts_what_it_reads(alloc: Global, look: &mut Look) -> Result<()> {
    look.part("a_walk_counts_what_it_reads");
    let mut meter = Meter::new(alloc)?;
    let tree = family(alloc, &mut meter)?;
    let [root, four, five, six] = [1, 4, 5, 6].map(ObjectId::new);
    let before = meter.probes();
    look.sees(tree.is_listed(root, six, &mut meter));
    let one = meter.probes();
    look.sees(tree.is_listed(four, six, &mut meter));
    let two = meter.probes();
    look.sees(!tree.is_listed(five, six, &mut meter));
    let three = meter.probes();
    look.sees(agree(one.saturating_sub(before), 8));
    look.sees(agree(two.saturating_sub(one), 11));
    look.sees(agree(three.saturating_sub(two), 16));
    look.sees(tree.peek(six, &mut meter).is_some());
    look.sees(agree(tree.peek(ObjectId::new(7), &mut meter), None));
    look.sees(tree.peek_three(six, five, four, &mut meter).is_some());
    look.sees(agree(meter.probes().saturating_sub(three), 5));
    Ok(())
}

fn what_no_path_leads_to_goes(alloc: Global, look: &mut Look) -> Result<()> {
    look.part("what_no_path_leads_to_goes");
    let mut meter = Meter::new(alloc)?;
    let mut tree = family(alloc, &mut meter)?;
    let mut seen = nothing_seen();
    let [root, four, five, six] = [1, 4, 5, 6].map(ObjectId::new);
    tree.unref(root, four, &mut seen, &mut meter);
    look.sees(agree(seen.links, 3));
    look.sees(agree(seen.len, 2));
    look.sees(agree(seen.objects[0].min(seen.objects[1]), 4));
    look.sees(agree(seen.objects[0].max(seen.objects[1]), 5));
    look.sees(agree(tree.len(), 2));
    look.sees(agree(tree.find(four, &mut meter), None));
    look.sees(agree(tree.find(five, &mut meter), None));
    look.sees(tree.find(six, &mut meter).is_some());
    Ok(())
}

fn a_container_that_was_found_gets_an_object(alloc: Global, look: &mut Look) -> Result<()> {
    look.part("a_container_that_was_found_gets_an_object");
    let mut meter = Meter::new(alloc)?;
    let mut tree = Containers::boot(alloc, 2, 'r')?;
    let root = found(&tree, ObjectId::root(), &mut meter);
    let slot = tree.create_in(root, ObjectId::new(6), 'c', &mut meter);
    look.sees(agree(tree.find(ObjectId::new(6), &mut meter), Some(slot)));
    look.sees(tree.is_listed(ObjectId::root(), ObjectId::new(6), &mut meter));
    Ok(())
}

fn a_link_is_made_where_both_were_found(alloc: Global, look: &mut Look) -> Result<()> {
    look.part("a_link_is_made_where_both_were_found");
    let mut meter = Meter::new(alloc)?;
    let mut tree = Containers::boot(alloc, 3, 'r')?;
    let [root, four, five] = [1, 4, 5].map(ObjectId::new);
    tree.create(root, four, 'a', &mut meter);
    tree.create(root, five, 'b', &mut meter);
    let container = found(&tree, four, &mut meter);
    let object = found(&tree, five, &mut meter);
    tree.link_found(container, object, &mut meter);
    look.sees(tree.is_listed(four, five, &mut meter));
    look.sees(!tree.is_listed(five, four, &mut meter));
    Ok(())
}

// The first link and its container are two probes; where that is another one, that there is another link is one more, and the
// last link with its container two.
fn a_first_link_is_two_probes(alloc: Global, look: &mut Look) -> Result<()> {
    look.part("a_first_link_is_two_probes");
    let mut meter = Meter::new(alloc)?;
    let tree = family(alloc, &mut meter)?;
    let root = found(&tree, ObjectId::root(), &mut meter);
    let six = found(&tree, ObjectId::new(6), &mut meter);
    let before = meter.probes();
    look.sees(tree.is_linked(root, six, &mut meter));
    look.sees(agree(meter.probes().saturating_sub(before), 2));
    let four = found(&tree, ObjectId::new(4), &mut meter);
    let other = found(&tree, ObjectId::new(6), &mut meter);
    let before = meter.probes();
    look.sees(tree.is_linked(four, other, &mut meter));
    look.sees(agree(meter.probes().saturating_sub(before), 5));
    Ok(())
}

// What goes is 4 with 5, and the second link to 6: the first link to 4 with its container, and how many there are; a cell that
// is moved; four turns of three reads, and that nothing is dying then; for 5 and for 6 whose link it is and how many there
// are; another cell that is moved, and three that are moved twice, of six reads each; and ten of the directory.
fn a_link_that_was_found_goes(alloc: Global, look: &mut Look) -> Result<()> {
    look.part("a_link_that_was_found_goes");
    let mut meter = Meter::new(alloc)?;
    let mut tree = family(alloc, &mut meter)?;
    let mut seen = nothing_seen();
    let root = found(&tree, ObjectId::root(), &mut meter);
    let four = found(&tree, ObjectId::new(4), &mut meter);
    let before = meter.probes();
    look.sees(tree.unref_found(root, four, &mut seen, &mut meter));
    look.sees(agree(meter.probes().saturating_sub(before), 78));
    look.sees(agree(seen.links, 3));
    look.sees(agree(seen.len, 2));
    look.sees(agree(tree.len(), 2));
    Ok(())
}

// The first and the last link with their containers, and twice how many there are; a cell that is moved twice; and that
// nothing is dying.
fn a_second_link_goes_alone(alloc: Global, look: &mut Look) -> Result<()> {
    look.part("a_second_link_goes_alone");
    let mut meter = Meter::new(alloc)?;
    let mut tree = family(alloc, &mut meter)?;
    let mut seen = nothing_seen();
    let four = found(&tree, ObjectId::new(4), &mut meter);
    let six = found(&tree, ObjectId::new(6), &mut meter);
    let before = meter.probes();
    look.sees(tree.unref_found(four, six, &mut seen, &mut meter));
    look.sees(agree(meter.probes().saturating_sub(before), 19));
    look.sees(agree(seen.links, 1));
    look.sees(agree(tree.len(), 4));
    Ok(())
}

// What is read is the first link to the object, that link's container, and that there is no other link.
fn where_there_is_no_link_nothing_goes(alloc: Global, look: &mut Look) -> Result<()> {
    look.part("where_there_is_no_link_nothing_goes");
    let mut meter = Meter::new(alloc)?;
    let mut tree = family(alloc, &mut meter)?;
    let mut seen = nothing_seen();
    let root = found(&tree, ObjectId::root(), &mut meter);
    let five = found(&tree, ObjectId::new(5), &mut meter);
    let before = meter.probes();
    look.sees(!tree.unref_found(root, five, &mut seen, &mut meter));
    look.sees(agree(meter.probes().saturating_sub(before), 3));
    look.sees(agree(seen.links, 0));
    look.sees(agree(seen.len, 0));
    look.sees(agree(tree.len(), 4));
    Ok(())
}

// The same, made once more where the first making had no memory.
fn family_again(alloc: Global, meter: &mut Meter) -> Result<Containers<char>, NoMemory> {
    match family(alloc, meter) {
        Ok(tree) => Ok(tree),
        Err(_) => family(alloc, meter),
    }
}

// Where an allocation is refused, containers that are booted again are as if nothing had been.
fn want_of_memory_changes_nothing(alloc: Global, look: &mut Look) -> Result<()> {
    look.part("want_of_memory_changes_nothing");
    let mut meter = meter_again(alloc)?;
    let mut tree = family_again(alloc, &mut meter)?;
    let [root, four, five, six] = [1, 4, 5, 6].map(ObjectId::new);
    look.sees(agree(tree.parent(five, &mut meter), Some(four)));
    let mut seen = nothing_seen();
    tree.unref(root, four, &mut seen, &mut meter);
    look.sees(agree(seen.links, 3));
    look.sees(agree(seen.len, 2));
    look.sees(agree(tree.len(), 2));
    if tree.len() > 1 {
        look.sees(agree(tree.live(1, &mut meter), six));
    }
    Ok(())
}

/// Plays what there is memory for.
pub fn play(alloc: Global, look: &mut Look) -> Result<()> {
    links_are_kept_in_order(alloc, look)?;
    a_walk_counts_what_it_reads(alloc, look)?;
    what_no_path_leads_to_goes(alloc, look)?;
    a_container_that_was_found_gets_an_object(alloc, look)?;
    a_link_is_made_where_both_were_found(alloc, look)?;
    a_first_link_is_two_probes(alloc, look)?;
    a_link_that_was_found_goes(alloc, look)?;
    a_second_link_goes_alone(alloc, look)?;
    where_there_is_no_link_nothing_goes(alloc, look)
}

/// Plays what is made again where there was no memory.
pub fn again(alloc: Global, look: &mut Look) -> Result<()> {
    want_of_memory_changes_nothing(alloc, look)
}
