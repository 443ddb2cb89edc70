//! What a scene sees.

/// How many facts a scene has seen, and the first one that does not hold. (What it sees has no contract: what was found true stays
/// unknown to the proof of what follows, and makes none of it dearer.)
#[derive(Drop)]
pub struct Look {
    part: &'static str,
    place: u32,
    facts: u32,
    wrong_part: &'static str,
    wrong_place: u32,
}

impl Look {
    /// One that has seen nothing.
    pub fn begin() -> Look {
        Look {
            part: "",
            place: 0,
            facts: 0,
            wrong_part: "",
            wrong_place: 0,
        }
    }

    /// What is seen from here on is of this part.
    pub fn part(&mut self, name: &'static str) {
        self.part = name;
        self.place = 0;
    }

    /// Sees whether a fact holds.
    pub fn sees(&mut self, fact: bool) {
        self.place = self.place.saturating_add(1);
        self.facts = self.facts.saturating_add(1);
        if !fact && self.wrong_place == 0 {
            self.wrong_part = self.part;
            self.wrong_place = self.place;
        }
    }

    /// How many facts were seen.
    pub fn facts(&self) -> u32 {
        self.facts
    }

    /// The part of the first fact that does not hold, with the fact's place in it, from 1.
    pub fn first_wrong(&self) -> Option<(&'static str, u32)> {
        if self.wrong_place == 0 {
            return None;
        }
        Some((self.wrong_part, self.wrong_place))
    }
}

/// Whether two values are equal.
pub fn agree<T: PartialEq + Drop>(one: T, other: T) -> bool {
    one == other
}
