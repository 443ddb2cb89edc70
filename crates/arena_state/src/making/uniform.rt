//! Labels that give each category one level.
ghost use Rattle.std.specs.Prelude.{◌≡◌, ◌==◌, ◌≤◌, ◌+◌, false};
ghost use Rattle.base.specs.Level.{rank_of};
ghost use Rattle.kernel_rules.specs.Step.{uniform};

use base::{Level, Meter};
use label_lattice::{Label, Pairs, RawLabel};

/// The label that gives each category this level, which is not star. One scan.
pub fn uniform(level: Level, meter: &mut Meter) -> Label
    requires { (rank_of level == 0) ≡ false }
    ensures value { result ≡ uniform level }
    ensures scans { meter.new.scans ≤ meter.old.scans + 1 }
{
    let raw = RawLabel {
        default: level,
        pairs: Pairs::new(),
    };
    match Label::from_raw(&raw, meter) {
        Ok(label) => label,
        Err(_) => unreachable!(),
    }
}
