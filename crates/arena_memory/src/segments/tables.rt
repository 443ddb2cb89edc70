//! The frames of one slot.
ghost use Rattle.std.specs.Prelude.{◌≡◌, ◌+◌, ◌-◌, ◌<◌, ◌≤◌, [], ◌∷◌, ◌++◌, length, take, slice_index};

use std::marker::Model;

/// The frames of a slot, 0 to 16, in the order of its pages. A contract sees the list of their numbers.
#[derive(Drop)]
pub struct Table {
    len: usize,
    frames: [usize; 16],
}

impl Model for Table {
    ghost use Rattle.std.specs.Prelude.{◌≡◌, ◌≤◌, ℕ, List, length, take};

    ghost Value = { List ℕ };

    ghost view = { λ t. take t.len t.frames };

    ghost invariant = { λ t. (t.len ≤ 16) × (length t.frames ≡ 16) };
}

impl Table {
    /// No frame.
    pub fn new() -> Table
        ensures { result ≡ [] }
    {
        Table {
            len: 0,
            frames: [0; 16],
        }
    }

    /// How many frames there are.
    pub fn len(&self) -> usize
        ensures count { result ≡ length self.now }
        ensures few { length self.now ≤ 16 }
    {
        self.len
    }

    /// The frame of a page.
    pub fn at(&self, place: usize) -> usize
        requires { place < length self.now }
        ensures { result ≡ slice_index self.now place }
    {
        let frames = &self.frames;
        frames[place]
    }

    /// Puts a frame last, where there are fewer than 16.
    pub fn push(&mut self, frame: usize)
        requires { length self.old < 16 }
        ensures { self.new ≡ self.old ++ frame ∷ [] }
    {
        self.frames[self.len] = frame;
        self.len += 1;
    }

    /// Takes the last frame out, and tells it.
    pub fn pop(&mut self) -> usize
        requires { 0 < length self.old }
        ensures last { result ≡ slice_index self.old (length self.old - 1) }
        ensures rest { self.new ≡ take (length self.old - 1) self.old }
    {
        self.len -= 1;
        self.frames[self.len]
    }
}
