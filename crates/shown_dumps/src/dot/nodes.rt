//! The nodes and clusters of objects.
ghost use Rattle.std.specs.Prelude.{◌≡◌, ◌++◌, ◌+◌, ◌^◌, ◌<◌, OnOk, length};
ghost use Rattle.base.specs.Live.{has};
ghost use Rattle.shown_dumps.specs.Nodes.{broken, node_name, color_text, attributes, node_line, arrow_text, slot_arrow, slot_arrows, space_arrow, body_arrows, cluster_begin, list_arrow, unseen_node, cluster_text, open_text, close_text};
ghost use Rattle.plain_state.specs.StateOf.{state_of};

use crate::dot::looks::Look;
use crate::tree::{Place, put_indent, put_object};
use base::{Kind, Meter, NoMemory, ObjectId};
use kernel_rules::{Body, Entry, Mapping, Object};
use plain_state::{PlainState, kind_of};
use text_words::put_number;

/// Adds a text whose lines end after each comma that a space follows.
fn put_broken(out: &mut Vec<u8>, text: &[u8]) -> Result<(), NoMemory>
    ensures { OnOk result (out.new.items ≡ out.old.items ++ broken 0 text.now) }
{
    let mut last = 0u8;
    for byte in text {
        if last == b',' && *byte == b' ' {
            out.extend_from_slice(b"\\n")?;
        } else {
            out.push(*byte)?;
        }
        last = *byte;
    }
    Ok(())
}

/// Adds the name of the node of an object.
fn put_name(out: &mut Vec<u8>, id: ObjectId) -> Result<(), NoMemory>
    ensures { OnOk result (out.new.items ≡ out.old.items ++ node_name id) }
{
    out.extend_from_slice(b"o")?;
    put_number(out, id.number())?;
    Ok(())
}

/// Whether an id is among ids.
fn has(ids: &[ObjectId], id: ObjectId) -> bool
    ensures { result ≡ has ids.now id }
{
    ids.iter().any(|one| id == *one)
}

/// The end of a label, and the colour by whether the object is reached. A cluster without one would take that of the cluster
/// around it.
fn color_text(is_reached: bool) -> &'static str
    ensures { result.now ≡ color_text is_reached }
{
    if is_reached {
        "\", color=red"
    } else {
        "\", color=black"
    }
}

/// Adds what Graphviz is told of an object: what the tree tells of it, as a label, and its colour.
fn put_attributes(
    out: &mut Vec<u8>,
    state: &PlainState,
    look: &Look<'_>,
    place: &Place,
    object: &Object,
    meter: &mut Meter,
) -> Result<(), NoMemory>
    ensures { OnOk result (out.new.items
        ≡ out.old.items ++ attributes look.now.names.now (state_of state.now) look.now.reached.now place.now object.now) }
{
    let mut told = Vec::new(state.alloc());
    put_object(&mut told, state, place, object, look.names, meter)?;
    out.extend_from_slice(b"label=\"")?;
    put_broken(out, told.as_slice())?;
    out.extend_from_slice(color_text(has(look.reached, place.id)).as_bytes())?;
    Ok(())
}

/// Adds the line of an object's node.
fn put_node(
    out: &mut Vec<u8>,
    state: &PlainState,
    look: &Look<'_>,
    place: &Place,
    object: &Object,
    meter: &mut Meter,
) -> Result<(), NoMemory>
    ensures { OnOk result (out.new.items
        ≡ out.old.items ++ node_line look.now.names.now (state_of state.now) look.now.reached.now place.now object.now) }
{
    put_indent(out, place.depth)?;
    put_name(out, place.id)?;
    out.extend_from_slice(b" [")?;
    put_attributes(out, state, look, place, object, meter)?;
    out.extend_from_slice(b"];\n")?;
    Ok(())
}

/// Adds the beginning of an arrow to what an entry names.
fn put_arrow(out: &mut Vec<u8>, place: &Place, entry: &Entry) -> Result<(), NoMemory>
    ensures { OnOk result (out.new.items ≡ out.old.items ++ arrow_text place.now entry.now) }
{
    put_name(out, place.id)?;
    out.extend_from_slice(b" -> ")?;
    put_name(out, entry.object)
}

/// Adds the arrow of a slot, nothing where it is empty.
fn put_slot_arrow(
    out: &mut Vec<u8>,
    place: &Place,
    slot: u64,
    mapping: &Option<Mapping>,
) -> Result<(), NoMemory>
    ensures { OnOk result (out.new.items ≡ out.old.items ++ slot_arrow place.now slot mapping.now) }
{
    let Some(mapping) = mapping else {
        return Ok(());
    };
    put_arrow(out, place, &mapping.entry)?;
    out.extend_from_slice(b" [label=\"slot ")?;
    put_number(out, slot)?;
    out.extend_from_slice(b"\"];\n")?;
    Ok(())
}

/// Adds the arrows of slots, the first of which has this number.
fn put_slot_arrows(
    out: &mut Vec<u8>,
    place: &Place,
    slot: u64,
    slots: &[Option<Mapping>],
) -> Result<(), NoMemory>
    requires { slot + length slots.now < 2 ^ 63 }
    ensures { OnOk result (out.new.items ≡ out.old.items ++ slot_arrows place.now slot slots.now) }
{
    match slots {
        [] => Ok(()),
        [first, rest @ ..] => {
            put_slot_arrow(out, place, slot, first)?;
            put_slot_arrows(out, place, slot + 1, rest)
        }
    }
}

/// Adds the arrow to an address space, where there is one.
fn put_space_arrow(out: &mut Vec<u8>, place: &Place, space: &Entry) -> Result<(), NoMemory>
    ensures { OnOk result (out.new.items ≡ out.old.items ++ space_arrow place.now space.now) }
{
    if space.names_none() {
        return Ok(());
    }
    put_arrow(out, place, space)?;
    out.extend_from_slice(b" [style=dashed];\n")?;
    Ok(())
}

/// Adds the arrows from an object. The error is want of memory.
pub fn put_arrows(out: &mut Vec<u8>, place: &Place, body: &Body) -> Result<(), NoMemory>
    ensures { OnOk result (out.new.items ≡ out.old.items ++ body_arrows place.now body.now) }
{
    match body {
        Body::Thread(thread) => put_space_arrow(out, place, &thread.space),
        Body::Gate(gate) => put_space_arrow(out, place, &gate.space),
        Body::AddressSpace(slots) => put_slot_arrows(out, place, 0, &slots.slots),
        Body::Container(_, _) => Ok(()),
        Body::Segment(_) => Ok(()),
        Body::Device(_) => Ok(()),
    }
}

/// Adds the arrow to an object from the container that lists it at a place. The error is want of memory.
pub fn put_list_arrow(out: &mut Vec<u8>, place: &Place) -> Result<(), NoMemory>
    ensures { OnOk result (out.new.items ≡ out.old.items ++ list_arrow place.now) }
{
    out.extend_from_slice(b"c")?;
    put_number(out, place.container.number())?;
    out.extend_from_slice(b" -> ")?;
    put_name(out, place.id)?;
    out.extend_from_slice(b" [style=dotted, dir=both, arrowtail=dot];\n")?;
    Ok(())
}

/// Adds the beginning of a cluster, up to what Graphviz is told of it.
fn put_cluster_begin(out: &mut Vec<u8>, place: &Place) -> Result<(), NoMemory>
    ensures { OnOk result (out.new.items ≡ out.old.items ++ cluster_begin place.now) }
{
    put_indent(out, place.depth)?;
    out.extend_from_slice(b"subgraph cluster_")?;
    put_number(out, place.id.number())?;
    out.extend_from_slice(b" { graph [")?;
    Ok(())
}

/// Adds the end of what Graphviz is told of a cluster, and a node that nobody sees.
fn put_unseen(out: &mut Vec<u8>, id: ObjectId) -> Result<(), NoMemory>
    ensures { OnOk result (out.new.items ≡ out.old.items ++ unseen_node id) }
{
    out.extend_from_slice(b"]; c")?;
    put_number(out, id.number())?;
    out.extend_from_slice(b" [style=invis];\n")?;
    Ok(())
}

/// Adds the beginning of a container's cluster.
fn put_cluster(
    out: &mut Vec<u8>,
    state: &PlainState,
    look: &Look<'_>,
    place: &Place,
    object: &Object,
    meter: &mut Meter,
) -> Result<(), NoMemory>
    ensures { OnOk result (out.new.items
        ≡ out.old.items ++ cluster_text look.now.names.now (state_of state.now) look.now.reached.now place.now object.now) }
{
    put_cluster_begin(out, place)?;
    put_attributes(out, state, look, place, object, meter)?;
    put_unseen(out, place.id)
}

/// Adds what stands of an object before what it lists. The error is want of memory.
pub fn put_opened(
    out: &mut Vec<u8>,
    state: &PlainState,
    look: &Look<'_>,
    place: &Place,
    object: &Object,
    meter: &mut Meter,
) -> Result<(), NoMemory>
    ensures { OnOk result (out.new.items
        ≡ out.old.items ++ open_text look.now.names.now (state_of state.now) look.now.reached.now place.now object.now) }
{
    if kind_of(object) == Kind::Container {
        return put_cluster(out, state, look, place, object, meter);
    }
    put_node(out, state, look, place, object, meter)
}

/// Adds what stands of an object after what it lists. The error is want of memory.
pub fn put_closed(out: &mut Vec<u8>, place: &Place, object: &Object) -> Result<(), NoMemory>
    ensures { OnOk result (out.new.items ≡ out.old.items ++ close_text place.now object.now) }
{
    if kind_of(object) == Kind::Container {
        put_indent(out, place.depth)?;
        out.extend_from_slice(b"}\n")?;
    }
    Ok(())
}
