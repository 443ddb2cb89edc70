//! The log of the calls and checkpoints, for C.
ghost use Rattle.std.specs.Prelude.{◌≡◌, ℕ};
ghost use Rattle.histar_c.specs.Served.{IsBegun, IsDone, IsDumped, IsLogCut, IsSaved};
ghost use Rattle.call_records.specs.Asked.{Log};
ghost use Rattle.call_records.specs.Logs.{TellsLength};

use crate::held::Kept;
use call_records::{Answer, LogRequest, tell, tell_length, tell_text};
use kernel_rules::Reply;

/// Begins the log, of so much at most and with reads where they are wanted, and gives 0; 45 where a call was made already, and
/// nothing changes.
fn begin(kept: &mut Kept, most: u64, reads: bool, answer: &mut Answer) -> u32
    ensures { IsBegun most reads kept.old kept.new result answer.old answer.new }
{
    if !kept.logged.begin_log(most, reads) {
        return 45;
    }
    tell(&Reply::Done, answer, &mut kept.meter)
}

/// Keeps a text that was made, tells how many bytes it has, and gives 0.
fn keep_text(kept: &mut Kept, text: Vec<u8>, answer: &mut Answer) -> u32
    ensures kept { (kept.new.logged ≡ kept.old.logged) × (kept.new.text.items ≡ text.items) }
    ensures told { (result ≡ 0) × TellsLength text.items answer.new }
{
    tell_length(text.as_slice(), answer);
    kept.text = text;
    0
}

/// Makes a piece of the text of the log's dump, and gives 0; 45 where no log is kept, and 51 for want of memory, and nothing changes.
fn make_piece(kept: &mut Kept, piece: u64, answer: &mut Answer) -> u32
    ensures { IsDumped piece kept.old kept.new result answer.old answer.new }
{
    match kept.logged.dump_piece(piece, &mut kept.meter) {
        Ok(Some(text)) => keep_text(kept, text, answer),
        Ok(None) => 45,
        Err(_) => 51,
    }
}

/// Makes the text of the kernel's checkpoint, which has one piece, and gives 0; 51 for want of memory, and nothing changes.
fn make_checkpoint(kept: &mut Kept, piece: u64, answer: &mut Answer) -> u32
    ensures { IsSaved piece kept.old kept.new result answer.old answer.new }
{
    if piece > 0 {
        let none = Vec::new(kept.alloc);
        return keep_text(kept, none, answer);
    }
    match kept.logged.checkpoint_text(&mut kept.meter) {
        Ok(text) => keep_text(kept, text, answer),
        Err(_) => 51,
    }
}

/// Begins the log anew, of so much at most and with reads where they are wanted, and gives 0; 40 for want of memory, and nothing
/// changes.
fn cut(kept: &mut Kept, most: u64, reads: bool, answer: &mut Answer) -> u32
    ensures { IsLogCut most reads kept.old kept.new result answer.old answer.new }
{
    match kept.logged.cut_log(most, reads) {
        Ok(()) => tell(&Reply::Done, answer, &mut kept.meter),
        Err(_) => 40,
    }
}

/// Does what is asked of the log, and gives the number of the refusal.
pub(crate) fn answer_log(kept: &mut Kept, request: LogRequest, answer: &mut Answer) -> u32
    ensures { (thread : ℕ) → IsDone (Log request) thread kept.old kept.new result answer.old answer.new }
{
    match request {
        LogRequest::Begin { most, reads } => begin(kept, most, reads, answer),
        LogRequest::Dump { piece } => make_piece(kept, piece, answer),
        LogRequest::Text { from } => {
            tell_text(kept.text.as_slice(), from, answer);
            0
        }
        LogRequest::Checkpoint { piece } => make_checkpoint(kept, piece, answer),
        LogRequest::Cut { most, reads } => cut(kept, most, reads, answer),
    }
}
