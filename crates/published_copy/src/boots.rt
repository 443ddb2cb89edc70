//! A boot, and what threads share of it.
//!
//! A change of the published copy visits the place of each seat's reader, given or not. 64 of them take most of a submit's time,
//! so a boot can be made for fewer seats.
ghost use Rattle.core.specs.Mem.{manually_drop_value};
ghost use Rattle.std.specs.Prelude.{◌≡◌, ◌≤◌, ◌<◌, ◌↔◌, false, IfOk, IfErr, IsErrOf};
ghost use Rattle.base.specs.Limits.{in_range};
ghost use Rattle.kernel_rules.specs.Runs.{booted};
ghost use Rattle.syscall_core.specs.Kernel.{kernel_state};
ghost use Rattle.published_copy.specs.Seats.{IsOpened, IsNotOpened};

use crate::book_guards::BookGuard;
use crate::books::Book;
use crate::logs::{Head, SeenLog, empty_log};
use crate::naming::Naming;
use crate::pairs::Pair;
use crate::places::{Places, SEATS};
use crate::refusals::SeatRefusal;
use crate::seats::Seat;
use crate::tallies::Tally;
use crate::writers::{Writer, first_copies};
use base::{Limits, Meter, NoMemory, ObjectId};
use kept_events::KeptEvent;
use std::alloc::Global;
use std::marker::Model;
use std::mem::ManuallyDrop;
use std::sync::{Arc, Mutex, Wait};
use syscall_core::{BootRefusal, Kernel};

/// A boot that has no name yet. A contract sees it as the log of its events, by its name, its
/// limits and its seats. One that is dropped keeps the copies' memory.
#[derive(Drop)]
pub struct Boot {
    alloc: Global,
    limits: Limits,
    meter: Meter,
    journal: Vec<KeptEvent>,
    tallies: Vec<Tally>,
    places: Places,
    seen: SeenLog,
    head: Arc<Head>,
    writer: ManuallyDrop<Writer>,
}

impl Model for Boot {
    ghost use Rattle.core.specs.Mem.{manually_drop_value};
    ghost use Rattle.std.specs.Prelude.{◌≡◌, [], drop};
    ghost use Rattle.std.specs.Arc.{arc_value};
    ghost use Rattle.published_copy.specs.Books.{places_with};
    ghost use Rattle.published_copy.specs.Boots.{Boot, boot_of};
    ghost use Rattle.published_copy.specs.Rules.{head_of};
    ghost use Rattle.published_copy.specs.Shares.{IsShown};

    ghost Value = { Boot };

    ghost view = { λ b. boot_of b.seen.book b.limits b.places.seats };

    ghost invariant = { λ b. (b.journal.items ≡ []) × (b.tallies.items ≡ []) × (b.places ≡ places_with [] b.places.seats)
        × (b.seen.log ≡ []) × (arc_value b.head ≡ head_of b.seen.book)
        × IsShown (boot_of b.seen.book b.limits b.places.seats)
        (manually_drop_value b.writer).desk.shown.value []
        × (drop (manually_drop_value b.writer).behind (manually_drop_value b.writer).log.items
        ≡ []) };
}

/// A boot over a newly booted kernel, with its two copies and all that seats need.
fn boot_over(alloc: Global, limits: &Limits, seats: usize, kernel: Kernel) -> Result<Boot, NoMemory>
    requires booted { kernel_state kernel ≡ booted limits.now }
    requires seats { (0 < seats) × (seats ≤ 64) }
    ensures limits { IfOk result (λ boot. boot.limits ≡ limits.now) }
    ensures seats { IfOk result (λ boot. boot.seats ≡ seats) }
{
    let meter = Meter::new(alloc)?;
    let places = Places::new(alloc, seats)?;
    let (head, seen) = empty_log(alloc)?;
    let writer = first_copies(alloc, limits, kernel, &seen, seats)?;
    Ok(Boot {
        alloc,
        limits: *limits,
        meter,
        journal: Vec::new(alloc),
        tallies: Vec::new(alloc),
        places,
        seen,
        head,
        writer: unsafe { ManuallyDrop::new_unchecked(writer) },
    })
}

impl Boot {
    /// Boots a kernel and its two copies, with an empty journal and all that 64 seats need, which are
    /// the most that a boot has. The error is `BadLimits` exactly where a limit is out of its range,
    /// and else, for want of memory, `Unavailable`.
    pub fn new(alloc: Global, limits: &Limits) -> Result<Boot, BootRefusal>
        ensures boot { IfOk result (λ boot. boot.limits ≡ limits.now) }
        ensures seats { IfOk result (λ boot. boot.seats ≡ 64) }
        ensures limits { IsErrOf result BootRefusal.BadLimits ↔ (in_range limits.now ≡ false) }
    {
        Boot::with_seats(alloc, limits, SEATS)
    }

    /// A boot as `new` makes it, for 1 to 64 seats: each call looks at the place of each, so a boot
    /// for few makes calls faster.
    pub fn with_seats(alloc: Global, limits: &Limits, seats: usize) -> Result<Boot, BootRefusal>
        requires { (0 < seats) × (seats ≤ 64) }
        ensures boot { IfOk result (λ boot. boot.limits ≡ limits.now) }
        ensures seats { IfOk result (λ boot. boot.seats ≡ seats) }
        ensures limits { IsErrOf result BootRefusal.BadLimits ↔ (in_range limits.now ≡ false) }
    {
        let kernel = Kernel::boot(alloc, limits)?;
        match boot_over(alloc, limits, seats, kernel) {
            Ok(boot) => Ok(boot),
            Err(_) => Err(BootRefusal::Unavailable),
        }
    }

    /// The boot under the name of `B`. It takes no memory.
    pub fn open<B: Naming>(self) -> Shared<B>
        requires { self ≡ B.boot }
    {
        let Boot {
            alloc,
            limits,
            meter,
            journal,
            tallies,
            places,
            seen,
            head,
            writer,
        } = self;
        let pair = Pair::new(alloc, seen, head, writer);
        Shared {
            book: Mutex::new(Book::new(limits, meter, journal, tallies, places, pair)),
        }
    }
}

/// A booted kernel that threads share.
#[derive(Drop)]
pub struct Shared<B: Naming> {
    book: Mutex<Book<B>>,
}

impl<B: Naming> Shared<B> {
    /// The book, for as long as it is kept. It waits for the lock.
    pub fn book<R: Wait>(&self, rt: &R) -> BookGuard<'_, B> {
        BookGuard::new(self.book.lock(rt))
    }

    /// A seat for a live thread that has had none: its first event will be number 1. It waits for
    /// the lock, and for those who still read the copy that isn't published, and takes no memory.
    /// The error is `SeatTaken` where the thread was given a seat or has an event, else `NoThread`
    /// where the id is not that of a live thread, and else `SeatsSpent` where all seats of the boot were
    /// given.
    pub fn open_seat<R: Wait>(&self, rt: &R, thread: ObjectId) -> Result<Seat<'_, B>, SeatRefusal>
        ensures done { IfOk result (λ seat. IsOpened B.boot thread seat) }
        ensures refused { IfErr result (λ refusal. IsNotOpened B.boot thread refusal) }
    {
        let (pass, handle, meter) = self.book.lock(rt).seat(rt, thread)?;
        Ok(Seat::new(&self.book, pass, handle, meter))
    }

    /// The book at the end: no seat is left then and it is not lent, so nothing more comes to its
    /// journal. It takes no lock and no memory.
    pub fn close(self) -> Book<B> {
        let Shared { book } = self;
        book.into_inner()
    }
}
