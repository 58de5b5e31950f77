//! Copies of replies.
ghost use Rattle.std.specs.Prelude.{◌≡◌, true, IfOk, IfSome, IfNone, OnErr};
ghost use Rattle.pybuf_exporter.specs.Owning.{scalar_owns, item_owns, reply_owns};

use pybuf_command::LocalReply;
use pybuf_value::{Item, Made, Scalar, Twin};
use std::alloc::Global;

/// A copy of a value that owns no memory.
fn plain_scalar(value: &Scalar) -> Option<Scalar>
    ensures some { IfSome result (λ copy. copy ≡ value.now) }
    ensures none { IfNone result (scalar_owns value.now ≡ true) }
{
    match value {
        Scalar::None => Some(Scalar::None),
        Scalar::Bool(truth) => Some(Scalar::Bool(*truth)),
        Scalar::Int(number) => Some(Scalar::Int(*number)),
        Scalar::Ellipsis => Some(Scalar::Ellipsis),
        Scalar::Handle(handle) => Some(Scalar::Handle(*handle)),
        Scalar::Text(_) | Scalar::Bytes(_) => None,
    }
}

/// A copy of an item that owns no memory.
fn plain_item(item: &Item) -> Option<Item>
    ensures some { IfSome result (λ copy. copy ≡ item.now) }
    ensures none { IfNone result (item_owns item.now ≡ true) }
{
    match item {
        Item::One(value) => {
            let value = plain_scalar(value)?;
            Some(Item::One(value))
        }
        Item::Many(_) => None,
    }
}

/// A copy of a reply that owns no memory. Takes no memory.
fn plain_reply(reply: &LocalReply) -> Option<LocalReply>
    ensures some { IfSome result (λ copy. copy ≡ reply.now) }
    ensures none { IfNone result (reply_owns reply.now ≡ true) }
{
    match reply {
        LocalReply::Ok => Some(LocalReply::Ok),
        LocalReply::View(view) => Some(LocalReply::View(*view)),
        LocalReply::Iter(iterator) => Some(LocalReply::Iter(*iterator)),
        LocalReply::Itself => Some(LocalReply::Itself),
        LocalReply::Own => Some(LocalReply::Own),
        LocalReply::Item(item) => {
            let item = plain_item(item)?;
            Some(LocalReply::Item(item))
        }
        LocalReply::Truth(truth) => Some(LocalReply::Truth(*truth)),
        LocalReply::NotImplementedReply => Some(LocalReply::NotImplementedReply),
        LocalReply::Stop => Some(LocalReply::Stop),
        LocalReply::Refused(fault) => Some(LocalReply::Refused(*fault)),
        _ => None,
    }
}

/// A copy of a reply. There is memory for it where the reply owns none.
pub fn copy_of_reply(alloc: Global, reply: &LocalReply) -> Made<LocalReply>
    ensures ok { IfOk result (λ copy. copy ≡ reply.now) }
    ensures err { OnErr result (reply_owns reply.now ≡ true) }
{
    if let Some(copy) = plain_reply(reply) {
        return Ok(copy);
    }
    reply.copy(alloc)
}

/// A reply and a copy of it. There is memory for it where the reply owns none. (A function of its own, since a reply that
/// is let go spells out all its variants.)
pub fn twice(alloc: Global, reply: LocalReply) -> Made<(LocalReply, LocalReply)>
    ensures ok { IfOk result (λ r. (r.0 ≡ reply) × (r.1 ≡ reply)) }
    ensures err { OnErr result (reply_owns reply ≡ true) }
{
    let copy = copy_of_reply(alloc, &reply)?;
    Ok((reply, copy))
}
