//! What stands in the replies of queries, after the first word.
ghost use Rattle.std.specs.Prelude.{◌≡◌, ◌≤◌, ◌++◌, ℕ, List, length, map, OnOk, IfSome, IfNone};
ghost use Rattle.kernel_rules.specs.declared.calls.Entry.{Entry as EntryValue};
ghost use Rattle.text_words.specs.declared.spoken_calls.args.Arg.{Arg as ArgValue};
ghost use Rattle.dump_text.specs.declared.words.Word.TheVariants.{Object as Numbered};
ghost use Rattle.dump_text.specs.Allowed.{Anything};
ghost use Rattle.dump_text.specs.Call.{entry_words};
ghost use Rattle.dump_text.specs.Making.{Makes};
ghost use Rattle.dump_text.specs.Word.{arg_of, args_of};
ghost use Rattle.dump_text.specs.ReadReply.{own_words, shown_words, quota_words, listed_words};
ghost use Rattle.dump_text.specs.ReadReply.{parent_words, pages_words, mapped_words, HasFew};

use crate::head_words::flag_in;
use crate::labels::numbered;
use crate::line_words::Worded;
use crate::read_replies::{LabelReply, ListReply, OwnReply, PagesReply, ParentReply, QuotaReply};
use base::ObjectId;
use checkpoints::RawThread;
use kernel_rules::{Entry, Ids, Mapping};
use text_words::Reference;
use text_words::spoken_calls::Arg;

/// An entry, its ids behind a #, and the words after it.
fn named_entry(args: &[Arg]) -> Option<(Entry, &[Arg])>
    ensures some { IfSome result (λ r. args.now ≡ args_of (entry_words r.0) ++ r.1.now) }
    ensures none { IfNone result ((e : EntryValue) (rest : List ArgValue)
        → args.now ≡ args_of (entry_words e) ++ rest → ⊥) }
{
    let [
        Arg::Object(Reference::Number(container)),
        Arg::Object(Reference::Number(object)),
        rest @ ..,
    ] = args
    else {
        return None;
    };
    let entry = Entry {
        container: ObjectId::new(*container),
        object: ObjectId::new(*object),
    };
    Some((entry, rest))
}

/// What a thread is.
impl Worded for OwnReply {
    ghost words = { own_words };

    ghost Allows = { Anything };

    fn of_args(args: &[Arg]) -> Option<OwnReply> {
        let [
            Arg::Label(label),
            Arg::Label(clearance),
            Arg::Label(verify),
            more @ ..,
        ] = args
        else {
            return None;
        };
        let Some((space, last)) = named_entry(more) else {
            return None;
        };
        let [Arg::Wide(entry_point), Arg::Wide(closure)] = last else {
            return None;
        };
        let Some(label) = numbered(label) else {
            return None;
        };
        let Some(clearance) = numbered(clearance) else {
            return None;
        };
        let Some(verify) = numbered(verify) else {
            return None;
        };
        Some(OwnReply {
            label,
            thread: RawThread {
                clearance,
                verify,
                space,
                entry_point: *entry_point,
                closure: *closure,
            },
        })
    }
}

/// A label.
impl Worded for LabelReply {
    ghost words = { shown_words };

    ghost Allows = { Anything };

    fn of_args(args: &[Arg]) -> Option<LabelReply> {
        let [Arg::Label(label)] = args else {
            return None;
        };
        let Some(label) = numbered(label) else {
            return None;
        };
        Some(LabelReply { label })
    }
}

/// What an object may use and uses.
impl Worded for QuotaReply {
    ghost words = { quota_words };

    ghost Allows = { Anything };

    fn of_args(args: &[Arg]) -> Option<QuotaReply> {
        let [
            Arg::Number(quota),
            Arg::Number(used),
            Arg::Number(fixed),
            Arg::Number(immutable),
        ] = args
        else {
            return None;
        };
        let Some(fixed) = flag_in(*fixed) else {
            return None;
        };
        let Some(immutable) = flag_in(*immutable) else {
            return None;
        };
        Some(QuotaReply {
            quota: *quota,
            used: *used,
            fixed,
            immutable,
        })
    }
}

/// The id that the argument is, behind a #.
fn id_in(arg: &Arg) -> Option<ObjectId>
    ensures some { IfSome result (λ id. arg.now ≡ arg_of (Numbered id)) }
    ensures none { IfNone result ((id : ℕ) → arg.now ≡ arg_of (Numbered id) → ⊥) }
{
    match arg {
        Arg::Object(Reference::Number(id)) => Some(ObjectId::new(*id)),
        _ => None,
    }
}

/// The ids that the arguments are, each behind a #.
fn ids_in(args: &[Arg]) -> Option<Ids>
    requires { length args.now ≤ 16 }
    ensures some { IfSome result (λ ids. args.now ≡ args_of (map Numbered ids)) }
    ensures none { IfNone result ((ids : List ℕ) → args.now ≡ args_of (map Numbered ids) → ⊥) }
{
    let mut ids = [ObjectId::new(0); 16];
    for place in 0..args.len() {
        let Some(id) = id_in(&args[place]) else {
            return None;
        };
        ids[place] = id;
    }
    Some(Ids::from_slice(&ids[..args.len()]))
}

/// Ids that a container lists.
impl Worded for ListReply {
    ghost words = { listed_words };

    ghost Allows = { HasFew };

    fn of_args(args: &[Arg]) -> Option<ListReply> {
        let [Arg::Wide(count), listed @ ..] = args else {
            return None;
        };
        if listed.len() > 16 {
            return None;
        }
        let Some(ids) = ids_in(listed) else {
            return None;
        };
        Some(ListReply { count: *count, ids })
    }
}

/// A container.
impl Worded for ParentReply {
    ghost words = { parent_words };

    ghost Allows = { Anything };

    fn of_args(args: &[Arg]) -> Option<ParentReply> {
        match args {
            [Arg::Object(Reference::Number(container))] => Some(ParentReply {
                container: ObjectId::new(*container),
            }),
            _ => None,
        }
    }
}

/// The length of a segment.
impl Worded for PagesReply {
    ghost words = { pages_words };

    ghost Allows = { Anything };

    fn of_args(args: &[Arg]) -> Option<PagesReply> {
        match args {
            [Arg::Number(pages)] => Some(PagesReply { pages: *pages }),
            _ => None,
        }
    }
}

/// A mapping.
impl Worded for Mapping {
    ghost words = { mapped_words };

    ghost Allows = { Anything };

    fn of_args(args: &[Arg]) -> Option<Mapping> {
        let [Arg::Number(page), more @ ..] = args else {
            return None;
        };
        let Some((entry, last)) = named_entry(more) else {
            return None;
        };
        match last {
            [Arg::Number(first), Arg::Number(count), Arg::Rights(rights)] => Some(Mapping {
                page: *page,
                entry,
                first: *first,
                count: *count,
                rights: *rights,
            }),
            _ => None,
        }
    }
}
