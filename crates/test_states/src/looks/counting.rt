//! A store that counts what it looks up.
use base::{Data, Kind, Meter, NoMemory, ObjectId, Rights, TypeSet};
use kernel_rules::{Entry, Gate, Ids, Mapping, Thread};
use kernel_store::{Named, NewBody, Placed, Seen, Store, ThreadLabels};
use label_lattice::Label;
use plain_state::PlainState;

/// A plain state, of which the meter counts what is looked up: each id that is found, each address, and each time that bytes
/// are read.
#[derive(Drop)]
pub struct Counting {
    state: PlainState,
}

impl Counting {
    /// A store of this state.
    pub fn new(state: PlainState) -> Counting {
        Counting { state }
    }
}

impl Store for Counting {
    ghost use Rattle.plain_state.specs.StateOf.{state_of};

    ghost state = { λ s. state_of s.state };

    ghost kept = { λ m. 0 };

    ghost stored = { λ s. 0 };

    ghost spends = { λ n a b. Unit {0} };

    ghost id_of = { λ id. id };

    ghost stands = { λ s id. Unit {0} };

    ghost sound = { λ s. Unit {0} };

    ghost kept_scans = { λ n l m h. Unit {0} };

    ghost none_spent = { λ m. tt };

    ghost more_spent = { λ a b l m h k. tt };

    ghost both_spent = { λ a b l m n h k. tt };

    type Location = ObjectId;

    type Want = NoMemory;

    fn id(&self, at: ObjectId) -> ObjectId {
        Store::id(&self.state, at)
    }

    fn find(&self, id: ObjectId, meter: &mut Meter) -> ObjectId {
        meter.probe();
        Store::find(&self.state, id, meter)
    }

    fn peek(&self, thread: ObjectId, entry: &Entry, meter: &mut Meter) -> Option<Named<ObjectId>> {
        Store::peek(&self.state, thread, entry, meter)
    }

    fn is_live(&self, kind: Kind, at: ObjectId) -> bool {
        Store::is_live(&self.state, kind, at)
    }

    fn seen(&self, caller: ObjectId, at: ObjectId, meter: &mut Meter) -> Seen {
        Store::seen(&self.state, caller, at, meter)
    }

    fn lists(&self, container: ObjectId, object: ObjectId, meter: &mut Meter) -> bool {
        Store::lists(&self.state, container, object, meter)
    }

    fn avoids(&self, kind: Kind, container: ObjectId) -> bool {
        Store::avoids(&self.state, kind, container)
    }

    fn is_there(&self, at: ObjectId) -> bool {
        Store::is_there(&self.state, at)
    }

    fn is_cleared(&self, caller: ObjectId, at: ObjectId, meter: &mut Meter) -> bool {
        Store::is_cleared(&self.state, caller, at, meter)
    }

    fn label(&self, at: ObjectId) -> Option<&Label> {
        Store::label(&self.state, at)
    }

    fn clearance(&self, thread: ObjectId) -> Option<&Label> {
        Store::clearance(&self.state, thread)
    }

    fn is_fixed(&self, at: ObjectId) -> bool {
        Store::is_fixed(&self.state, at)
    }

    fn is_immutable(&self, at: ObjectId) -> bool {
        Store::is_immutable(&self.state, at)
    }

    fn quota(&self, at: ObjectId) -> u32 {
        Store::quota(&self.state, at)
    }

    fn used_pages(&self, at: ObjectId) -> u32 {
        Store::used_pages(&self.state, at)
    }

    fn is_over(&self, container: ObjectId, pages: u32) -> bool {
        Store::is_over(&self.state, container, pages)
    }

    fn joined(&self, container: ObjectId, kinds: TypeSet) -> TypeSet {
        Store::joined(&self.state, container, kinds)
    }

    fn list_len(&self, container: ObjectId, meter: &mut Meter) -> usize {
        Store::list_len(&self.state, container, meter)
    }

    fn ids_from(&self, container: ObjectId, from: u32, meter: &mut Meter) -> Ids {
        Store::ids_from(&self.state, container, from, meter)
    }

    fn parent(&self, container: ObjectId, meter: &mut Meter) -> ObjectId {
        Store::parent(&self.state, container, meter)
    }

    fn bytes_from(&self, at: ObjectId, from: usize, count: u32, meter: &mut Meter) -> Data {
        meter.probe();
        Store::bytes_from(&self.state, at, from, count, meter)
    }

    fn place(&self, caller: ObjectId, address: u64, meter: &mut Meter) -> Option<Placed<ObjectId>> {
        meter.probe();
        Store::place(&self.state, caller, address, meter)
    }

    fn is_shown(&self, caller: ObjectId, at: ObjectId, meter: &mut Meter) -> bool {
        Store::is_shown(&self.state, caller, at, meter)
    }

    fn page_count(&self, at: ObjectId) -> u32 {
        Store::page_count(&self.state, at)
    }

    fn slots(&self, at: ObjectId, meter: &mut Meter) -> &[Option<Mapping>] {
        Store::slots(&self.state, at, meter)
    }

    fn slot(&self, at: ObjectId, slot: usize, meter: &mut Meter) -> Option<Mapping> {
        Store::slot(&self.state, at, slot, meter)
    }

    fn packets(&self, at: ObjectId) -> &[Data] {
        Store::packets(&self.state, at)
    }

    fn metadata(&self, at: ObjectId) -> Option<Data> {
        Store::metadata(&self.state, at)
    }

    fn gate(&self, at: ObjectId) -> Option<Gate> {
        Store::gate(&self.state, at)
    }

    fn thread(&self, at: ObjectId) -> Option<Thread> {
        Store::thread(&self.state, at)
    }

    fn translate(
        &self,
        thread: ObjectId,
        slot: usize,
        meter: &mut Meter,
    ) -> Option<(ObjectId, Rights)> {
        Store::translate(&self.state, thread, slot, meter)
    }

    fn id_at(&self, place: usize, meter: &mut Meter) -> Option<ObjectId> {
        Store::id_at(&self.state, place, meter)
    }

    fn next_id(&self) -> ObjectId {
        Store::next_id(&self.state)
    }

    fn next_category(&self) -> u64 {
        Store::next_category(&self.state)
    }

    fn link(
        &mut self,
        target: ObjectId,
        container: ObjectId,
        object: ObjectId,
        meter: &mut Meter,
    ) -> Result<(), NoMemory> {
        Store::link(&mut self.state, target, container, object, meter)
    }

    fn unref(
        &mut self,
        container: ObjectId,
        object: ObjectId,
        meter: &mut Meter,
    ) -> Result<(), NoMemory> {
        Store::unref(&mut self.state, container, object, meter)
    }

    fn set_fixed(&mut self, at: ObjectId) {
        Store::set_fixed(&mut self.state, at);
    }

    fn quota_move(&mut self, container: ObjectId, object: ObjectId, up: u32, down: u32) {
        Store::quota_move(&mut self.state, container, object, up, down);
    }

    fn write_bytes(&mut self, segment: ObjectId, at: usize, given: &[u8], meter: &mut Meter) {
        Store::write_bytes(&mut self.state, segment, at, given, meter);
    }

    fn resize(&mut self, segment: ObjectId, pages: u32, meter: &mut Meter) -> Result<(), NoMemory> {
        Store::resize(&mut self.state, segment, pages, meter)
    }

    fn set_slot(
        &mut self,
        space: ObjectId,
        slot: usize,
        mapping: Option<Mapping>,
        meter: &mut Meter,
    ) {
        Store::set_slot(&mut self.state, space, slot, mapping, meter);
    }

    fn dev_send(
        &mut self,
        device: ObjectId,
        packet: Data,
        meter: &mut Meter,
    ) -> Result<(), NoMemory> {
        Store::dev_send(&mut self.state, device, packet, meter)
    }

    fn dev_recv(&mut self, device: ObjectId, meter: &mut Meter) {
        Store::dev_recv(&mut self.state, device, meter);
    }

    fn set_immutable(&mut self, at: ObjectId, meter: &mut Meter) {
        Store::set_immutable(&mut self.state, at, meter);
    }

    fn meta_set(&mut self, at: ObjectId, given: &Data) {
        Store::meta_set(&mut self.state, at, given);
    }

    fn set_label(&mut self, thread: ObjectId, label: Option<&Label>, meter: &mut Meter) {
        Store::set_label(&mut self.state, thread, label, meter);
    }

    fn set_clearance(&mut self, thread: ObjectId, clearance: Option<&Label>, meter: &mut Meter) {
        Store::set_clearance(&mut self.state, thread, clearance, meter);
    }

    fn set_space(&mut self, thread: ObjectId, space: Entry, meter: &mut Meter) {
        Store::set_space(&mut self.state, thread, space, meter);
    }

    fn enter(&mut self, thread: ObjectId, labels: &ThreadLabels, gate: &Gate, meter: &mut Meter) {
        Store::enter(&mut self.state, thread, labels, gate, meter);
    }

    fn own_category(
        &mut self,
        thread: ObjectId,
        label: Option<&Label>,
        clearance: Option<&Label>,
        meter: &mut Meter,
    ) {
        Store::own_category(&mut self.state, thread, label, clearance, meter);
    }

    fn create(
        &mut self,
        container: ObjectId,
        label: Option<&Label>,
        quota: u32,
        body: &NewBody<ObjectId>,
        meter: &mut Meter,
    ) -> Result<ObjectId, NoMemory> {
        Store::create(&mut self.state, container, label, quota, body, meter)
    }
}
