//! One family of lists: each cell stands in at most one of them.
ghost use Rattle.std.specs.Prelude.{◌≡◌, ℕ, ◌+◌, ◌-◌, ◌^◌, ◌<◌, List, [], ◌∷◌, ◌++◌, length};
ghost use Rattle.std.specs.Prelude.{IfOk, slice_get, slice_index, slice_index_or, slice_set, remove};
ghost use Rattle.std.specs.Prelude.{Some, None};
ghost use Rattle.std.specs.List.{range_with_len};
ghost use Rattle.base.specs.Counts.{probed};
ghost use Rattle.containers.specs.Chain.{IsLaidOut};
ghost use Rattle.containers.specs.Lists.{StandsAt, shifted};

use base::{Meter, NoMemory};
use std::alloc::Global;
use std::marker::Model;

/// The lists of one family, in rings: the sentinel of a head leads to the first cell of its list, and the last cell
/// back to it.
#[derive(Drop)]
pub struct Chains {
    cells: usize,
    next: Vec<usize>,
    prev: Vec<usize>,
    // Of a cell in a list, that list's head.
    heads: Vec<usize>,
    // Of each head, the length of its list.
    lens: Vec<usize>,
}

impl Model for Chains {
    ghost use Rattle.containers.specs.Lists.{Lists, lists_code};

    ghost Value = { Lists };

    ghost coded = { lists_code };

    ghost use Rattle.containers.specs.Chain.{IsSound, lists_from};

    ghost view = { λ a. record {
      cells = a.cells;
      lists = lists_from a.next.items a.cells a.lens.items;
    } };

    ghost invariant = { λ a. IsSound a.cells a.next.items a.prev.items a.heads.items a.lens.items };
}

// Each number below `len`, in order: in nodes, each leads to itself.
fn each_below(alloc: Global, len: usize) -> Result<Vec<usize>, NoMemory>
    ensures { IfOk result (λ v. v.items ≡ range_with_len 0 len) }
{
    let mut v = Vec::with_capacity(alloc, len)?;
    for i in 0..len {
        v.push(i)?;
    }
    Ok(v)
}

// A cell, and the head of the list at whose end it is put.
#[derive(Clone, Copy)]
struct Put {
    head: usize,
    cell: usize,
}

// Puts a cell that stands in no list at the end of a head's list, by the nodes alone.
#[inline(always)]
fn put_last(
    cells: usize,
    next: &mut [usize],
    prev: &mut [usize],
    heads: &mut [usize],
    lens: &mut [usize],
    put: Put,
)
    ghost lists: { List (List ℕ) }
    requires laid { IsLaidOut cells next.old prev.old heads.old lens.old lists }
    requires head { put.head < length lists }
    requires cell { put.cell < cells }
    requires free { (other place : ℕ) → StandsAt (slice_index_or lists other []) place put.cell → ⊥ }
    requires last { slice_index prev.old (cells + put.head) < length next.old }
    ensures { IsLaidOut cells next.new prev.new heads.new lens.new
        (slice_set lists put.head (slice_index_or lists put.head [] ++ put.cell ∷ [])) }
{
    let Put { head, cell } = put;
    let sentinel = cells + head;
    let last = prev[sentinel];
    let len = lens[head];
    next[last] = cell;
    next[cell] = sentinel;
    prev[sentinel] = cell;
    prev[cell] = last;
    heads[cell] = head;
    lens[head] = len + 1;
}

// Takes a cell out of its list, by the nodes alone.
#[inline(always)]
fn take_out(
    cells: usize,
    next: &mut [usize],
    prev: &mut [usize],
    heads: &[usize],
    lens: &mut [usize],
    cell: usize,
)
    ghost lists: { List (List ℕ) }
    requires laid { IsLaidOut cells next.old prev.old heads.now lens.old lists }
    requires linked { (head : ℕ) × (place : ℕ) × StandsAt (slice_index_or lists head []) place cell }
    requires before { slice_index prev.old cell < length next.old }
    requires after { slice_index next.old cell < length prev.old }
    ensures { (head place : ℕ) → StandsAt (slice_index_or lists head []) place cell
        → IsLaidOut cells next.new prev.new heads.now lens.new
        (slice_set lists head (remove (slice_index_or lists head []) place)) }
{
    let _cells = cells;
    let before = prev[cell];
    let after = next[cell];
    let head = heads[cell];
    let len = lens[head];
    next[before] = after;
    prev[after] = before;
    lens[head] = len - 1;
}

// Takes a cell out of its list and puts it at the end of a head's list, by the nodes alone.
#[inline(always)]
fn shift(
    cells: usize,
    next: &mut [usize],
    prev: &mut [usize],
    heads: &mut [usize],
    lens: &mut [usize],
    put: Put,
)
    ghost lists: { List (List ℕ) }
    requires laid { IsLaidOut cells next.old prev.old heads.old lens.old lists }
    requires to { put.head < length lists }
    requires linked { (head : ℕ) × (place : ℕ)
        × StandsAt (slice_index_or lists head []) place put.cell }
    ensures { (head place : ℕ) → StandsAt (slice_index_or lists head []) place put.cell
        → IsLaidOut cells next.new prev.new heads.new lens.new
        (shifted lists head place put.head put.cell) }
{
    take_out(cells, next, prev, heads, lens, put.cell);
    put_last(cells, next, prev, heads, lens, put);
}

impl Chains {
    ghost use Rattle.containers.specs.Lists.{empty_lists, list_at, with_list, shifted_lists};
    ghost use Rattle.containers.specs.Lists.{IsLinked, IsWellFormed};

    /// Lists with no cell yet, one for each head. Only this takes memory.
    pub fn new(alloc: Global, heads: usize, cells: usize) -> Result<Self, NoMemory>
        requires { cells + heads < 2 ^ 64 }
        ensures { IfOk result (λ r. r ≡ empty_lists cells heads) }
    {
        let next = each_below(alloc, cells + heads)?;
        let prev = each_below(alloc, cells + heads)?;
        let owners = vec![in alloc; 0; cells]?;
        let lens = vec![in alloc; 0; heads]?;
        Ok(Chains {
            cells,
            next,
            prev,
            heads: owners,
            lens,
        })
    }

    // The first cell of a head's list, none where the list is empty. Whoever asks counts it.
    fn peek_first(&self, head: usize) -> Option<usize>
        requires { head < length self.now.lists }
        ensures value { result ≡ slice_get (list_at self.now head) 0 }
    {
        let node = self.next[self.cells + head];
        if node < self.cells { Some(node) } else { None }
    }

    /// The first cell of a head's list, none where the list is empty.
    pub fn first(&self, head: usize, meter: &mut Meter) -> Option<usize>
        requires { head < length self.now.lists }
        ensures value { result ≡ slice_get (list_at self.now head) 0 }
        ensures counted { meter.new ≡ probed 1 meter.old }
    {
        meter.probe();
        self.peek_first(head)
    }

    // The last cell of a head's list, none where the list is empty. Whoever asks counts it.
    fn peek_last(&self, head: usize) -> Option<usize>
        requires { head < length self.now.lists }
        ensures value { result
            ≡ slice_get (list_at self.now head) (length (list_at self.now head) - 1) }
    {
        let node = self.prev[self.cells + head];
        if node < self.cells { Some(node) } else { None }
    }

    /// The last cell of a head's list, none where the list is empty.
    pub fn last(&self, head: usize, meter: &mut Meter) -> Option<usize>
        requires { head < length self.now.lists }
        ensures value { result
            ≡ slice_get (list_at self.now head) (length (list_at self.now head) - 1) }
        ensures counted { meter.new ≡ probed 1 meter.old }
    {
        meter.probe();
        self.peek_last(head)
    }

    // The cell after a cell that stands in a list, none where it is the last. Whoever asks counts it.
    fn peek_next(&self, cell: usize) -> Option<usize>
        requires { IsLinked self.now cell }
        ensures value { (head place : ℕ) → StandsAt (list_at self.now head) place cell
            → result ≡ slice_get (list_at self.now head) (place + 1) }
    {
        let node = self.next[cell];
        if node < self.cells { Some(node) } else { None }
    }

    /// The cell after a cell that stands in a list, none where it is the last.
    pub fn next(&self, cell: usize, meter: &mut Meter) -> Option<usize>
        requires { IsLinked self.now cell }
        ensures value { (head place : ℕ) → StandsAt (list_at self.now head) place cell
            → result ≡ slice_get (list_at self.now head) (place + 1) }
        ensures counted { meter.new ≡ probed 1 meter.old }
    {
        meter.probe();
        self.peek_next(cell)
    }

    /// The length of a head's list.
    pub fn len(&self, head: usize, meter: &mut Meter) -> usize
        requires { head < length self.now.lists }
        ensures value { result ≡ length (list_at self.now head) }
        ensures counted { meter.new ≡ probed 1 meter.old }
        ensures well_formed { IsWellFormed self.now }
    {
        meter.probe();
        self.lens[head]
    }

    // The head in whose list a cell stands. Whoever asks counts it.
    fn peek_head_of(&self, cell: usize) -> usize
        requires { IsLinked self.now cell }
        ensures value { (head place : ℕ) → StandsAt (list_at self.now head) place cell
            → result ≡ head }
        ensures within { result < length self.now.lists }
    {
        self.heads[cell]
    }

    /// The head in whose list a cell stands.
    pub fn head_of(&self, cell: usize, meter: &mut Meter) -> usize
        requires { IsLinked self.now cell }
        ensures value { (head place : ℕ) → StandsAt (list_at self.now head) place cell
            → result ≡ head }
        ensures within { result < length self.now.lists }
        ensures counted { meter.new ≡ probed 1 meter.old }
    {
        meter.probe();
        self.peek_head_of(cell)
    }

    /// Puts a cell that stands in no list at the end of a head's list.
    pub fn push_back(&mut self, head: usize, cell: usize, meter: &mut Meter)
        requires head { head < length self.old.lists }
        requires cell { cell < self.old.cells }
        requires free { ¬ IsLinked self.old cell }
        ensures appended { self.new ≡ with_list self.old head (list_at self.old head ++ cell ∷ []) }
        ensures was_well_formed { IsWellFormed self.old }
        ensures well_formed { IsWellFormed self.new }
        ensures counted { meter.new ≡ probed 2 meter.old }
    {
        meter.probe_many(2);
        put_last(
            self.cells,
            &mut self.next,
            &mut self.prev,
            &mut self.heads,
            &mut self.lens,
            Put { head, cell },
        );
    }

    /// Takes a cell out of its list.
    pub fn unlink(&mut self, cell: usize, meter: &mut Meter)
        requires { IsLinked self.old cell }
        ensures removed { (head place : ℕ) → StandsAt (list_at self.old head) place cell
            → self.new ≡ with_list self.old head (remove (list_at self.old head) place) }
        ensures free { ¬ IsLinked self.new cell }
        ensures was_well_formed { IsWellFormed self.old }
        ensures well_formed { IsWellFormed self.new }
        ensures counted { meter.new ≡ probed 4 meter.old }
    {
        meter.probe_many(4);
        take_out(
            self.cells,
            &mut self.next,
            &mut self.prev,
            &self.heads,
            &mut self.lens,
            cell,
        );
    }

    /// Takes a cell out of its list and puts it at the end of a head's list, which may be the same.
    pub fn shift(&mut self, to: usize, cell: usize, meter: &mut Meter)
        requires to { to < length self.old.lists }
        requires linked { IsLinked self.old cell }
        ensures shifted { (head place : ℕ) → StandsAt (list_at self.old head) place cell
            → self.new ≡ shifted_lists self.old head place to cell }
        ensures was_well_formed { IsWellFormed self.old }
        ensures well_formed { IsWellFormed self.new }
        ensures counted { meter.new ≡ probed 6 meter.old }
    {
        meter.probe_many(6);
        shift(
            self.cells,
            &mut self.next,
            &mut self.prev,
            &mut self.heads,
            &mut self.lens,
            Put { head: to, cell },
        );
    }
}
