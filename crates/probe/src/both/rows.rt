//! The rows of translation that the arena kernel keeps.
use base::{Meter, ObjectId};
use happy_calls::samples::is_shown;
use kernel_rules::Shown;
use syscall_core::{Kernel, Tables};

/// How many slots of a thread there can be, and one more.
const SLOTS: u32 = 17;

/// How many of the rows that a kernel keeps for a thread are among these, of which the first so many have been met; none
/// where one is not.
fn kept_of(
    kernel: &Kernel,
    thread: ObjectId,
    shown: &[Shown],
    met: usize,
    meter: &mut Meter,
) -> Option<usize> {
    let mut met = met;
    for slot in 0..SLOTS {
        if let Some((segment, rights)) = kernel.kept_translation(thread, slot as usize, meter) {
            let kept = Shown {
                thread,
                slot,
                segment,
                rights,
            };
            if !is_shown(&kept, shown.get(met)?) {
                return None;
            }
            met = met.saturating_add(1);
        }
    }
    Some(met)
}

/// Whether the rows that a kernel keeps are just those that its tables show.
pub fn keeps_rows(kernel: &Kernel, tables: &Tables, meter: &mut Meter) -> bool {
    let shown = tables.shown.as_slice();
    let mut met = 0;
    for thread in tables.live.iter() {
        match kept_of(kernel, *thread, shown, met, meter) {
            Some(more) => met = more,
            None => return false,
        }
    }
    met == shown.len()
}
