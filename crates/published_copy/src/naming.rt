//! What ties seats, passes, notes and books to one boot.
use std::marker::Brand;

/// Names a boot, which is known to proofs alone: by its limits, its seats and the log of its events. Seats,
/// passes, notes and a book of one type are of one boot.
pub trait Naming {
    ghost use Rattle.published_copy.specs.Boots.{Boot};

    ghost boot: { Boot };
}

impl Naming for Brand {
    ghost use Rattle.base.specs.declared.levels.Level.TheVariants.{L1};
    ghost use Rattle.published_copy.specs.Boots.{boot_of};

    ghost boot = { boot_of (record { number = 0; log_name = 0; cells_name = 0 })
        (record { pages = 64; device = L1; next_id = 4; next_category = 1 }) 64 };
}
