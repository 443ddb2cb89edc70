//! The arena kernel as what calls keep objects in: it takes no memory after its boot, and a call that compares only
//! labels which are kept scans none.
ghost use Rattle.std.specs.Prelude.{◌≡◌, ◌||◌};
ghost use Rattle.base.specs.declared.kinds.Kind.TheVariants as kinds;
ghost use Rattle.arena_state.specs.Shown.{AreKept, AreKeptBut};
ghost use Rattle.arena_state.specs.declared.rows.repairs.Change.TheVariants as touched;
ghost use Rattle.kernel_store.specs.Sights.{is_of};
ghost use Rattle.syscall_core.specs.Kernel.{cut_touches, may_be_of_kind};

use crate::kept_state::KeptState;
use arena_memory::translation_rows::Rows;
use arena_state::{ArenaState, Change, Location};
use base::{Data, Kind, Meter, ObjectId, Rights, TypeSet};
use kernel_rules::{Entry, Gate, Ids, Mapping, Thread};
use kernel_store::{Named, NewBody, Placed, Seen, Store, ThreadLabels};
use label_lattice::Label;
use std::convert::Infallible;

// What may be touched once an entry is taken out: what goes by it, and all where it names a container.
fn cut_touches(is_container: bool, entry: &Entry) -> Change
    ensures { result ≡ cut_touches is_container entry.now }
{
    if is_container {
        Change::All
    } else {
        Change::Entry(*entry)
    }
}

// Whether this is a container's kind.
#[tactic(auto, unfolding(kernel_store::specs::Sights::is_of))]
fn is_container(kind: Option<Kind>) -> bool
    ensures { result ≡ is_of kinds.Container kind }
{
    match kind {
        Some(Kind::Container) => true,
        Some(Kind::Segment | Kind::AddressSpace | Kind::Thread | Kind::Gate | Kind::Device)
        | None => false,
    }
}

// Whether what is of this kind may be an address space: so may be what is not recorded.
fn may_be_space(kind: Option<Kind>) -> bool
    ensures { result ≡ may_be_of_kind kinds.AddressSpace kind }
{
    match kind {
        None | Some(Kind::AddressSpace) => true,
        Some(Kind::Container | Kind::Segment | Kind::Thread | Kind::Gate | Kind::Device) => false,
    }
}

// Whether an entry may touch a thread as it comes or goes, by the kind of its object and by whether some address space may
// map it: it touches none where the object is recorded, is no address space, and none maps it.
fn may_touch(kind: Option<Kind>, is_mapped: bool) -> bool
    ensures { result ≡ (may_be_of_kind kinds.AddressSpace kind || is_mapped) }
{
    may_be_space(kind) || is_mapped
}

// Whether a thread may be touched once an entry is taken out, by the same.
fn cut_may_touch(kind: Option<Kind>, is_mapped: bool) -> bool
    ensures { result ≡ (is_of kinds.Container kind
        || (may_be_of_kind kinds.AddressSpace kind || is_mapped)) }
{
    is_container(kind) || may_touch(kind, is_mapped)
}

// The rows of the threads to which an entry that came may show something are remade. (In a function of its own, as the one
// below: most links touch no row.)
#[inline(never)]
fn repair_entry(state: &ArenaState, entry: &Entry, rows: &mut Rows, meter: &mut Meter)
    requires { AreKeptBut state.now (touched.Entry entry.now) 0 rows.old }
    ensures kept { AreKept state.now rows.new }
    ensures scans { meter.new.scans ≡ meter.old.scans }
{
    state.repair(&Change::Entry(*entry), rows, meter);
}

// The rows of the threads that an entry which was taken out may have touched are remade.
#[inline(never)]
fn repair_cut(
    state: &ArenaState,
    is_container: bool,
    entry: &Entry,
    rows: &mut Rows,
    meter: &mut Meter,
)
    requires { AreKeptBut state.now (cut_touches is_container entry.now) 0 rows.old }
    ensures kept { AreKept state.now rows.new }
    ensures scans { meter.new.scans ≡ meter.old.scans }
{
    let cut = cut_touches(is_container, entry);
    state.repair(&cut, rows, meter);
}

impl Store for KeptState {
    ghost use Rattle.arena_state.proofs.LookLaws.{no_looks, more_looks, both_looks};
    ghost use Rattle.arena_state.proofs.StockLaws.{whole_formed};
    ghost use Rattle.arena_state.specs.Looks.{Looks};
    ghost use Rattle.arena_state.specs.States.{labels_stored, state_of, Stands};
    ghost use Rattle.arena_state.specs.declared.locations.Location.{Location};

    ghost state = { λ k. state_of k.state };

    ghost kept = { λ m. m.scans };

    ghost stored = { λ k. labels_stored k.state };

    ghost spends = { Looks };

    type Location = Location;

    ghost id_of = { λ (l : Location). l.id };

    ghost stands = { λ k. Stands k.state };

    type Want = Infallible;

    #[inline(always)]
    fn id(&self, at: Location) -> ObjectId {
        at.id
    }

    #[inline(always)]
    fn find(&self, id: ObjectId, meter: &mut Meter) -> Location {
        self.rows.few();
        self.state.find(id, meter)
    }

    #[inline(always)]
    fn peek(&self, thread: ObjectId, entry: &Entry, meter: &mut Meter) -> Option<Named<Location>> {
        self.state.peek_all(thread, entry, meter)
    }

    #[inline(always)]
    fn is_live(&self, kind: Kind, at: Location) -> bool {
        self.state.is_live(kind, at)
    }

    #[inline(always)]
    fn seen(&self, caller: Location, at: Location, _meter: &mut Meter) -> Seen {
        self.state.seen(caller, at)
    }

    #[inline(always)]
    fn lists(&self, container: Location, object: Location, meter: &mut Meter) -> bool {
        self.state.lists(container, object, meter)
    }

    #[inline(always)]
    fn avoids(&self, kind: Kind, container: Location) -> bool {
        self.state.avoids(kind, container)
    }

    fn is_there(&self, at: Location) -> bool {
        self.state.is_there(at)
    }

    #[inline(always)]
    fn is_cleared(&self, caller: Location, at: Location, _meter: &mut Meter) -> bool {
        self.state.is_cleared(caller, at)
    }

    #[inline(always)]
    fn label(&self, at: Location) -> Option<&Label> {
        self.state.label(at)
    }

    #[inline(always)]
    fn clearance(&self, thread: Location) -> Option<&Label> {
        self.state.clearance(thread)
    }

    fn is_fixed(&self, at: Location) -> bool {
        self.state.is_fixed(at)
    }

    fn is_immutable(&self, at: Location) -> bool {
        self.state.is_immutable(at)
    }

    #[inline(always)]
    fn quota(&self, at: Location) -> u32 {
        self.state.quota(at)
    }

    fn used_pages(&self, at: Location) -> u32 {
        self.state.used_pages(at)
    }

    #[inline(always)]
    fn is_over(&self, container: Location, pages: u32) -> bool {
        self.state.is_over(container, pages)
    }

    fn joined(&self, container: Location, kinds: TypeSet) -> TypeSet {
        self.state.joined(container, kinds)
    }

    fn list_len(&self, container: Location, meter: &mut Meter) -> usize {
        self.state.list_len(container, meter)
    }

    fn ids_from(&self, container: Location, from: u32, meter: &mut Meter) -> Ids {
        self.state.ids_from(container, from, meter)
    }

    fn parent(&self, container: Location, meter: &mut Meter) -> ObjectId {
        self.state.parent(container.id, meter)
    }

    #[inline(always)]
    fn bytes_from(&self, at: Location, from: usize, count: u32, meter: &mut Meter) -> Data {
        self.state.bytes_from(at, from, count, meter)
    }

    #[inline(always)]
    fn place(&self, caller: Location, address: u64, meter: &mut Meter) -> Option<Placed<Location>> {
        self.rows.few();
        self.state.place(caller, address, &self.rows, meter)
    }

    fn is_shown(&self, caller: Location, at: Location, _meter: &mut Meter) -> bool {
        self.state.is_shown(caller, at)
    }

    fn page_count(&self, at: Location) -> u32 {
        self.state.page_count(at)
    }

    fn slots(&self, at: Location, meter: &mut Meter) -> &[Option<Mapping>] {
        self.state.slots(at, meter)
    }

    fn slot(&self, at: Location, slot: usize, meter: &mut Meter) -> Option<Mapping> {
        self.state.mapped(at, slot, meter)
    }

    fn packets(&self, at: Location) -> &[Data] {
        self.state.packets(at)
    }

    fn metadata(&self, at: Location) -> Option<Data> {
        self.state.metadata(at)
    }

    fn gate(&self, at: Location) -> Option<Gate> {
        self.state.gate(at)
    }

    fn thread(&self, at: Location) -> Option<Thread> {
        self.state.thread(at)
    }

    fn translate(
        &self,
        thread: ObjectId,
        slot: usize,
        meter: &mut Meter,
    ) -> Option<(ObjectId, Rights)> {
        self.state.kept_translation(thread, slot, &self.rows, meter)
    }

    fn id_at(&self, place: usize, meter: &mut Meter) -> Option<ObjectId> {
        self.state.kept_live(place, meter)
    }

    fn next_id(&self) -> ObjectId {
        self.state.next_id()
    }

    fn next_category(&self) -> u64 {
        self.state.next_category()
    }

    #[inline(always)]
    fn link(
        &mut self,
        target: Location,
        container: Location,
        object: Location,
        meter: &mut Meter,
    ) -> Result<(), Infallible> {
        let linked = Entry {
            container: target.id,
            object: object.id,
        };
        let is_mapped = self.state.may_map(linked.object, meter);
        let kind = self.state.link(target, container, object, meter);
        if may_touch(kind, is_mapped) {
            repair_entry(&self.state, &linked, &mut self.rows, meter);
        }
        Ok(())
    }

    #[inline(always)]
    fn unref(
        &mut self,
        container: Location,
        object: Location,
        meter: &mut Meter,
    ) -> Result<(), Infallible> {
        let entry = Entry {
            container: container.id,
            object: object.id,
        };
        let is_mapped = self.state.may_map(entry.object, meter);
        let kind = self.state.unref(container, object, meter);
        if cut_may_touch(kind, is_mapped) {
            let is_container = is_container(kind);
            repair_cut(&self.state, is_container, &entry, &mut self.rows, meter);
        }
        Ok(())
    }

    fn set_fixed(&mut self, at: Location) {
        self.state.set_fixed(at);
    }

    fn quota_move(&mut self, container: Location, object: Location, up: u32, down: u32) {
        self.state.quota_move(container, object, up, down);
    }

    #[inline(always)]
    fn write_bytes(&mut self, segment: Location, at: usize, given: &[u8], meter: &mut Meter) {
        self.state.write_bytes(segment, at, given, meter);
    }

    fn resize(
        &mut self,
        segment: Location,
        pages: u32,
        meter: &mut Meter,
    ) -> Result<(), Infallible> {
        self.state.resize(segment, pages, meter);
        Ok(())
    }

    fn set_slot(
        &mut self,
        space: Location,
        slot: usize,
        mapping: Option<Mapping>,
        meter: &mut Meter,
    ) {
        let id = space.id;
        self.state.set_slot(space, slot, mapping);
        self.state.repair(&Change::Space(id), &mut self.rows, meter);
    }

    fn dev_send(
        &mut self,
        device: Location,
        packet: Data,
        meter: &mut Meter,
    ) -> Result<(), Infallible> {
        self.state.dev_send(device, packet, meter);
        Ok(())
    }

    fn dev_recv(&mut self, device: Location, meter: &mut Meter) {
        self.state.dev_recv(device, meter);
    }

    fn set_immutable(&mut self, at: Location, meter: &mut Meter) {
        let id = at.id;
        self.state.set_immutable(at);
        if self.state.may_map(id, meter) {
            self.state
                .repair(&Change::Object(id), &mut self.rows, meter);
        }
    }

    fn meta_set(&mut self, at: Location, given: &Data) {
        self.state.meta_set(at, given);
    }

    fn set_label(&mut self, thread: Location, label: Option<&Label>, meter: &mut Meter) {
        let id = thread.id;
        self.state.give_label(id, label, meter);
        self.state.remake_row(id, &mut self.rows, meter);
    }

    fn set_clearance(&mut self, thread: Location, clearance: Option<&Label>, meter: &mut Meter) {
        self.state.give_clearance(thread.id, clearance, meter);
    }

    fn set_space(&mut self, thread: Location, space: Entry, meter: &mut Meter) {
        let id = thread.id;
        self.state.set_space(thread, space);
        self.state.remake_row(id, &mut self.rows, meter);
    }

    fn own_category(
        &mut self,
        thread: Location,
        label: Option<&Label>,
        clearance: Option<&Label>,
        meter: &mut Meter,
    ) {
        let id = thread.id;
        self.state.own_category(id, label, clearance, meter);
        self.state.remake_row(id, &mut self.rows, meter);
    }

    fn enter(&mut self, thread: Location, labels: &ThreadLabels, gate: &Gate, meter: &mut Meter) {
        let id = thread.id;
        self.state.enter(id, labels, gate, meter);
        self.state.remake_row(id, &mut self.rows, meter);
    }

    fn create(
        &mut self,
        container: Location,
        label: Option<&Label>,
        quota: u32,
        body: &NewBody<Location>,
        meter: &mut Meter,
    ) -> Result<ObjectId, Infallible> {
        let id = self.state.create(container, label, quota, body, meter);
        self.state.remake_row(id, &mut self.rows, meter);
        Ok(id)
    }

    ghost sound = { λ s. whole_formed s.state.pieces s.state.sound s.state.stocked };

    ghost kept_scans = { λ n l m h. h.no_more };

    ghost none_spent = { no_looks };

    ghost more_spent = { more_looks };

    ghost both_spent = { both_looks };
}
