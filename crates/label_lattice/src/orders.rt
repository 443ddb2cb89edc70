//! The order of labels, and the rules that are made of it.
//!
//! One label is at most another where it is so at each category, in the order star, 0, 1, 2, 3. A
//! rule may raise star to J, which is above 3 and stands in no stored label. Each answer comes with
//! two clauses: the order over all categories, and the test that computes.
ghost use Rattle.std.specs.Prelude.{◌≡◌, ◌↔◌, IsTrue};
ghost use Rattle.base.specs.Counts.{scanned};
ghost use Rattle.label_lattice.specs.Order.{levels, Leq, leq_test, join, up, gate_floor};

use crate::labels::Label;
use crate::walk::Rule;
use base::Meter;

impl Label {
    /// Whether the label is at most the other at each category (HiStar, OSDI 2006). It adds one
    /// scan.
    pub fn leq(&self, other: &Label, meter: &mut Meter) -> bool
        ensures scan { meter.new ≡ scanned 1 meter.old }
        ensures order { IsTrue result ↔ Leq (levels self.now) (levels other.now) }
        ensures test { result ≡ leq_test (levels self.now) (levels other.now) }
    {
        meter.scan();
        self.compare(other).forth & 1 == 1
    }

    /// Whether the label is at most the other with star raised to J, as of an object's label and
    /// the label of a thread that observes it (HiStar, OSDI 2006). It adds one scan.
    pub fn leq_up(&self, other: &Label, meter: &mut Meter) -> bool
        ensures scan { meter.new ≡ scanned 1 meter.old }
        ensures order { IsTrue result ↔ Leq (levels self.now) (up (levels other.now)) }
        ensures test { result ≡ leq_test (levels self.now) (up (levels other.now)) }
    {
        meter.scan();
        self.compare(other).forth & 2 == 2
    }

    /// Whether the label is at most the other, both with star raised to J, as of a thread's label
    /// and the label of another that is shown it (this profile's rule). It adds one scan.
    pub fn leq_up_up(&self, other: &Label, meter: &mut Meter) -> bool
        ensures scan { meter.new ≡ scanned 1 meter.old }
        ensures order { IsTrue result ↔ Leq (up (levels self.now)) (up (levels other.now)) }
        ensures test { result ≡ leq_test (up (levels self.now)) (up (levels other.now)) }
    {
        meter.scan();
        self.compare(other).forth & 4 == 4
    }

    /// Whether the label is at most the maximum of two, as of a clearance that is asked of a gate,
    /// with the thread's clearance and the gate's (HiStar, OSDI 2006). It adds one scan.
    pub fn leq_join(&self, one: &Label, two: &Label, meter: &mut Meter) -> bool
        ensures scan { meter.new ≡ scanned 1 meter.old }
        ensures order { IsTrue result ↔
            Leq (levels self.now) (join (levels one.now) (levels two.now)) }
        ensures test { result ≡
            leq_test (levels self.now) (join (levels one.now) (levels two.now)) }
    {
        meter.scan();
        Label::holds(Rule::LeqJoin, self, one, two)
    }

    /// Whether the label is at most the maximum of two, the second with star raised to J, as of a
    /// new own clearance, with the thread's clearance and label (HiStar, OSDI 2006). It adds one
    /// scan.
    pub fn leq_join_up(&self, one: &Label, two: &Label, meter: &mut Meter) -> bool
        ensures scan { meter.new ≡ scanned 1 meter.old }
        ensures order { IsTrue result ↔
            Leq (levels self.now) (join (levels one.now) (up (levels two.now))) }
        ensures test { result ≡
            leq_test (levels self.now) (join (levels one.now) (up (levels two.now))) }
    {
        meter.scan();
        Label::holds(Rule::LeqJoinUp, self, one, two)
    }

    /// Whether the least label that a thread of this label may have past a gate is at most the
    /// asked one. That floor is the maximum of both labels with star raised to J, and then J
    /// lowered to star: what one of them owns, the thread may own (HiStar, OSDI 2006). It adds one
    /// scan.
    pub fn floor_leq(&self, gate: &Label, asked: &Label, meter: &mut Meter) -> bool
        ensures scan { meter.new ≡ scanned 1 meter.old }
        ensures order { IsTrue result ↔
            Leq (gate_floor (levels self.now) (levels gate.now)) (levels asked.now) }
        ensures test { result ≡
            leq_test (gate_floor (levels self.now) (levels gate.now)) (levels asked.now) }
    {
        meter.scan();
        Label::holds(Rule::Floor, self, gate, asked)
    }
}
