//! The functions that C calls. Each only finds what lies in C's memory, and calls a safe function.
ghost use Rattle.std.specs.Prelude.{◌≡◌};
ghost use Rattle.std.specs.Borrow.{full_share, sem};
ghost use Rattle.std.specs.Ptr.{lies_at, room_at};
ghost use denote.Param.{layout};
ghost use prog.Memory.{capped, size};
ghost use Rattle.histar_c.specs.contracts.held.Held.{the_row as HeldRow};
ghost use Rattle.histar_c.specs.Opened.{IsOpened};
ghost use Rattle.histar_c.specs.Served.{IsBoot, IsServed, held_kernel, limits_of};

use crate::held::{Held, booted, end, serve};
use crate::opening::opened;
use call_records::{Answer, Request};
use std::alloc::Global;

/// Boots a kernel in room for it, with limits as `base::Limits` has them. The room then holds a kernel, or why there
/// is none: 30 for want of memory, 31 for limits out of range. `histar_call` tells which.
#[unsafe(no_mangle)]
pub unsafe extern "C" fn histar_boot(
    alloc: Global,
    pages: u32,
    device: u8,
    next_id: u64,
    next_category: u64,
    at: *mut u8,
)
    requires* { sem 𝓛 (room_at HeldRow at) }
    ensures* { ∃ₛ (λ (held : Held). sem 𝓛 (lies_at HeldRow full_share at held)
        ∗ ⌜ IsBoot (limits_of pages device next_id next_category) (held_kernel held) ⌝) }
{
    at.cast::<Held>()
        .write(booted(alloc, pages, device, next_id, next_category));
}

/// Opens a kernel at a text, which `histar_call` makes of a checkpoint, in room for it. The room then holds a kernel that is restored from
/// the checkpoint of the text's dump, or is booted with the dump's limits where that has none; or why there is none: 30 for want of memory,
/// 31 for limits out of range, 50 where the text is no dump, 60 where the checkpoint can't be restored, 63 where events come after it.
#[unsafe(no_mangle)]
pub unsafe extern "C" fn histar_boot_at(alloc: Global, text: &[u8], at: *mut u8)
    requires* { sem 𝓛 (room_at HeldRow at) }
    ensures* { ∃ₛ (λ (held : Held). sem 𝓛 (lies_at HeldRow full_share at held)
        ∗ ⌜ IsOpened text.now (held_kernel held) ⌝) }
{
    at.cast::<Held>().write(opened(alloc, text));
}

/// Does what the record asks for, and gives the number of the refusal: 0 for none, 45 where the record asks for nothing.
/// Where a log is kept, 49 is that it has as much as it may have, 40 want of memory for a call's event or a read, and 51 for a
/// dump's text; nothing is done then. Where no kernel is held, it gives 30 or 31, and nothing changes.
#[unsafe(no_mangle)]
pub unsafe extern "C" fn histar_call(at: *mut u8, request: &Request, answer: &mut Answer) -> u32
    ghost before: { Held }
    requires* { sem 𝓛 (lies_at HeldRow full_share at before) }
    ensures* { ∃ₛ (λ (after : Held). sem 𝓛 (lies_at HeldRow full_share at after)
        ∗ ⌜ IsServed request.now before.kernel after.kernel result answer.old answer.new ⌝) }
{
    serve(&mut *at.cast::<Held>(), request, answer)
}

/// Gives back all that the kernel took. The memory is room again.
#[unsafe(no_mangle)]
pub unsafe extern "C" fn histar_end(at: *mut u8)
    ghost before: { Held }
    requires* { sem 𝓛 (lies_at HeldRow full_share at before) }
    ensures* { sem 𝓛 (room_at HeldRow at) }
{
    end(at.cast::<Held>().read());
}

/// The version of this library as one number: 10,000 times its first number, 100 times its second, and its third. The file VERSION has
/// it, and the gate compares the two.
#[unsafe(no_mangle)]
pub extern "C" fn histar_version() -> u32
    ensures { result ≡ 100 }
{
    100
}

/// How many bytes the room for a kernel has, at a multiple of 16.
#[unsafe(no_mangle)]
pub extern "C" fn histar_size() -> usize
    ensures { result ≡ capped (size (layout HeldRow)) }
{
    std::mem::size_of::<Held>()
}
