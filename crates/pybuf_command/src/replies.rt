//! What is read of a reply.
ghost use Rattle.std.specs.Prelude.{◌≡◌, option_map};
ghost use Rattle.std.specs.Option.{option_copied};
ghost use Rattle.pybuf_command.specs.Replies.{number_told, truth_told, view_told, refusal_told, text_told, bytes_told, reply_given};

use crate::commands::LocalReply;
use pybuf_value::{Fault, Item, Refusable, Scalar};

impl LocalReply {
    /// The number of a reply that is a single whole number: an item, a byte, a length or a place. None
    /// exactly for every other reply.
    ///
    /// Example: of the reply to `Verb::Len` of `b"Abc"` it is `Some(3)`, and of `LocalReply::Ok` it is `None`.
    pub fn number(&self) -> Option<i128>
        ensures { result ≡ number_told self.now }
    {
        match self {
            LocalReply::Item(Item::One(Scalar::Int(number))) => Some(*number),
            _ => None,
        }
    }

    /// The truth value of a reply that is one, also as an item. None exactly for every other reply.
    ///
    /// Example: `LocalReply::Truth(true).truth()` is `Some(true)`, and `LocalReply::Ok.truth()` is `None`.
    pub fn truth(&self) -> Option<bool>
        ensures { result ≡ truth_told self.now }
    {
        match self {
            LocalReply::Truth(truth) => Some(*truth),
            LocalReply::Item(Item::One(Scalar::Bool(truth))) => Some(*truth),
            _ => None,
        }
    }

    /// The number of the view that was made. None exactly where none was.
    ///
    /// Example: `LocalReply::View(0).view()` is `Some(0)`, and `LocalReply::Ok.view()` is `None`.
    pub fn view(&self) -> Option<usize>
        ensures { result ≡ view_told self.now }
    {
        match self {
            LocalReply::View(view) => Some(*view),
            _ => None,
        }
    }

    /// Why the command was refused. None exactly where it wasn't.
    ///
    /// Example: `LocalReply::Refused(Fault::Index).refusal()` is `Some(Fault::Index)`, and `LocalReply::Ok.refusal()` is `None`.
    pub fn refusal(&self) -> Option<Fault>
        ensures { result ≡ refusal_told self.now }
    {
        match self {
            LocalReply::Refused(fault) => Some(*fault),
            _ => None,
        }
    }

    /// The text of a reply that is one, lent. None exactly for every other reply.
    ///
    /// Example: of the reply to `PropertyName::Format` of a view of `b"ab"` it is `Some("B")`.
    pub fn text(&self) -> Option<&str>
        ensures { option_copied result ≡ text_told self.now }
    {
        match self {
            LocalReply::Text(text) => Some(text.as_str()),
            LocalReply::Shown(text) => Some(text.as_str()),
            _ => None,
        }
    }

    /// The bytes of a reply that is bytes. None exactly for every other reply. Takes no memory.
    ///
    /// Example: of the reply to `Verb::ToBytes` of `b"ab"` it is `Some` of the vector of `b"ab"`.
    pub fn into_bytes(self) -> Option<Vec<u8>>
        ensures { option_map (λ bytes. bytes.items) result ≡ bytes_told self }
    {
        match self {
            LocalReply::Bytes(bytes) => Some(bytes.into_vec()),
            // The reply is dropped by a call. If it ended with its scope, the drop would spell out all its variants.
            other => {
                drop(other);
                None
            }
        }
    }
}

impl Refusable for LocalReply {
    type Given = LocalReply;

    ghost given = { reply_given };

    fn into_result(self) -> Result<LocalReply, Fault> {
        match self {
            LocalReply::Refused(fault) => Err(fault),
            reply => Ok(reply),
        }
    }
}
