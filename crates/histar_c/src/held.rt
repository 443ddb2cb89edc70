//! What C's memory holds: a kernel, or why there is none.
ghost use Rattle.std.specs.Prelude.{◌≡◌, Some, None};
ghost use Rattle.call_records.specs.Asked.{asked, asked_by};
ghost use Rattle.call_records.specs.Logs.{log_request_of};
ghost use Rattle.call_records.specs.Lookups.{lookup_of};
ghost use Rattle.histar_c.specs.Served.{IsAsked, IsBoot, IsCalled, IsDone, IsFoundTold, IsKept, IsSame, IsServed};
ghost use Rattle.histar_c.specs.Served.{held_kernel, kernel_in, limits_of, not_kept_number};

use crate::logs::answer_log;
use crate::looking::look_up;
use base::{Limits, Meter, ObjectId};
use call_records::{
    Answer, Lookup, Request, call_into, level_of, log_request_of, lookup_of, query_of, tell,
    tell_found,
};
use kernel_rules::{Call, Query, Reply};
use logged_kernel::{LoggedKernel, NotKept};
use std::alloc::Global;
use syscall_core::BootRefusal;

/// A kernel, with what its calls need beside it.
#[derive(Drop)]
pub struct Kept {
    /// The kernel, and the log of its calls where one is kept.
    pub logged: LoggedKernel,
    /// Where texts take memory.
    pub alloc: Global,
    /// What its calls count on.
    pub meter: Meter,
    /// The last call. A call is large, so none is made anew.
    pub call: Call,
    /// The last reply. A reply is large, so none is made anew.
    pub reply: Reply,
    /// The piece of a dump or of a checkpoint that was made last.
    pub text: Vec<u8>,
}

/// A kernel, or the number that tells why there is none: 30 for want of memory, 31 for limits out of range; of a text also 50, 60 and
/// 63.
#[derive(Drop)]
pub struct Held {
    /// The kernel, or why there is none.
    pub kernel: Result<Kept, u32>,
}

/// The kernel with what its calls need, or 30 for want of memory.
pub(crate) fn kept_kernel(alloc: Global, logged: LoggedKernel) -> Result<Kept, u32>
    ensures { IsKept logged (kernel_in result) }
{
    match Meter::new(alloc) {
        Ok(meter) => Ok(Kept {
            logged,
            alloc,
            meter,
            call: Call::CatCreate,
            reply: Reply::Done,
            text: Vec::new(alloc),
        }),
        Err(_) => Err(30),
    }
}

/// A newly booted kernel, or why there is none.
pub(crate) fn new_kernel(alloc: Global, limits: &Limits) -> Result<Kept, u32>
    ensures { IsBoot (Some limits.now) (kernel_in result) }
{
    match LoggedKernel::boot(alloc, limits) {
        Ok(logged) => kept_kernel(alloc, logged),
        Err(BootRefusal::BadLimits) => Err(31),
        Err(BootRefusal::Unavailable) => Err(30),
    }
}

/// A newly booted kernel with these limits, or why there is none.
pub(crate) fn booted(
    alloc: Global,
    pages: u32,
    device: u8,
    next_id: u64,
    next_category: u64,
) -> Held
    ensures { IsBoot (limits_of pages device next_id next_category) (held_kernel result) }
{
    let Some(device) = level_of(device) else {
        return Held { kernel: Err(31) };
    };
    let limits = Limits {
        pages,
        device,
        next_id,
        next_category,
    };
    Held {
        kernel: new_kernel(alloc, &limits),
    }
}

/// Looks up, and tells what is found. It is out of line, so that calls don't pay for its stack frame.
#[inline(never)]
fn tell_look_up(kept: &mut Kept, lookup: &Lookup, answer: &mut Answer)
    ensures same { IsSame kept.old kept.new }
    ensures told { IsFoundTold kept.old.logged.kernel lookup.now 0 answer.new }
{
    let found = look_up(kept.logged.kernel(), lookup, &mut kept.meter);
    tell_found(&found, answer, &mut kept.meter);
}

/// The number that tells why a call is not kept, and so not made.
fn not_kept_number(why: NotKept) -> u32
    ensures { result ≡ not_kept_number why }
{
    match why {
        NotKept::NoMemory => 40,
        NotKept::LogFull => 49,
    }
}

/// Makes the call that stands in `kept`, and gives the number of the refusal: 0 for none, 49 where the log has as much as
/// it may have, 40 where there is no memory for the call's event.
fn make(kept: &mut Kept, thread: ObjectId, answer: &mut Answer) -> u32
    ensures { IsCalled kept.old.call thread kept.old kept.new result answer.old answer.new }
{
    let made = kept
        .logged
        .step_into(thread, &kept.call, &mut kept.reply, &mut kept.meter);
    match made {
        Ok(()) => tell(&kept.reply, answer, &mut kept.meter),
        Err(why) => not_kept_number(why),
    }
}

/// Asks a query, and gives the number of the refusal: 0 for none. Where reads are kept, 49 is that the log has as much as it may
/// have, 40 that there is no memory for the read.
fn ask(kept: &mut Kept, thread: ObjectId, query: &Query, answer: &mut Answer) -> u32
    ensures { IsAsked query.now thread kept.old kept.new result answer.old answer.new }
{
    let asked = kept
        .logged
        .ask_into(thread, query, &mut kept.reply, &mut kept.meter);
    match asked {
        Ok(()) => tell(&kept.reply, answer, &mut kept.meter),
        Err(why) => not_kept_number(why),
    }
}

/// Answers what is no call and no query, and gives the number of the refusal.
#[inline(never)]
fn answer_other(kept: &mut Kept, request: &Request, answer: &mut Answer) -> u32
    ensures { IsDone (asked_by None None (lookup_of request.now) (log_request_of request.now))
        request.now.thread kept.old kept.new result answer.old answer.new }
{
    if let Some(lookup) = lookup_of(request) {
        tell_look_up(kept, &lookup, answer);
        return 0;
    }
    match log_request_of(request) {
        Some(log_request) => answer_log(kept, log_request, answer),
        None => 45,
    }
}

/// Does what the record asks for, and gives the number of the refusal: 0 for none, 45 where the record asks for nothing.
fn answer_kept(kept: &mut Kept, request: &Request, answer: &mut Answer) -> u32
    ensures { IsDone (asked request.now) request.now.thread kept.old kept.new result
        answer.old answer.new }
{
    let thread = ObjectId::new(request.thread);
    if call_into(request, &mut kept.call).is_some() {
        return make(kept, thread, answer);
    }
    if let Some(query) = query_of(request) {
        return ask(kept, thread, &query, answer);
    }
    answer_other(kept, request, answer)
}

/// The same, or why there is no kernel.
pub(crate) fn serve(held: &mut Held, request: &Request, answer: &mut Answer) -> u32
    ensures { IsServed request.now held.old.kernel held.new.kernel result answer.old answer.new }
{
    match &mut held.kernel {
        Ok(kept) => answer_kept(kept, request, answer),
        Err(why) => *why,
    }
}

/// Gives back all that a kernel took.
pub(crate) fn end(held: Held) {
    drop(held);
}

/// What may be handed to another thread.
fn crosses<T: Send>(_value: &T) {}

/// A kernel in C's memory may be called by one thread and then by another.
fn held_crosses(held: &Held) {
    crosses(held);
}
