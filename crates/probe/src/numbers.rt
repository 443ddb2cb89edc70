//! The number of each refusal that a library answers.
use anyhow::Result;
use auditor::clean_dumps::DumpFault;
use call_text::ScriptError;
use dump_text::{DumpError, MigrateFault};
use happy_calls::look::{Look, agree};
use published_copy::{BootRefusal, SeatRefusal, SubmitRefusal, Unread};

fn of_texts(look: &mut Look) {
    look.part("of_texts");
    look.sees(agree(ScriptError::Line(7).refusal().number(), 50));
    look.sees(agree(ScriptError::Memory.refusal().number(), 51));
    look.sees(agree(DumpError::Line(7).refusal().number(), 50));
    look.sees(agree(DumpError::Memory.refusal().number(), 51));
    look.sees(agree(MigrateFault::NotFormat1(7).refusal().number(), 61));
    look.sees(agree(MigrateFault::Memory.refusal().number(), 51));
    look.sees(agree(DumpFault::NotClean.refusal().number(), 62));
    look.sees(agree(DumpFault::NoMemory.refusal().number(), 51));
}

fn of_seats(look: &mut Look) {
    look.part("of_seats");
    look.sees(BootRefusal::Unavailable.refusal().name() == "Unavailable");
    look.sees(agree(BootRefusal::Unavailable.refusal().number(), 30));
    look.sees(agree(SubmitRefusal::Memory.refusal().number(), 40));
    look.sees(agree(SubmitRefusal::OutOfTurn.refusal().number(), 44));
    look.sees(agree(SeatRefusal::SeatTaken.refusal().number(), 41));
    look.sees(agree(SeatRefusal::NoThread.refusal().number(), 42));
    look.sees(agree(SeatRefusal::SeatsSpent.refusal().number(), 43));
    look.sees(agree(Unread.refusal().number(), 46));
}

/// Plays all of it.
pub fn play(look: &mut Look) -> Result<()> {
    of_texts(look);
    of_seats(look);
    Ok(())
}
