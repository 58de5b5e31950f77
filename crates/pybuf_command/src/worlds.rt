//! Commands and replies of a world.

use crate::commands::Verb;
use crate::kinds::ExporterKind;
use crate::options::ByteInnerNewOptions;
use pybuf_value::{ByteList, ByteLists, CountList, Fault, Item, ItemList, Items, NumberList, Text};

/// A command for a world.
///
/// Example: the line `len h0` is `Command::Do` of `Verb::Len` with the subject 0.
#[derive(Debug, Drop)]
pub enum Command {
    /// A new exporter.
    /// Example: the line `new bytearray x6162` is `New` of a bytearray with the source `b"ab"`.
    New {
        kind: ExporterKind,
        options: ByteInnerNewOptions,
    },
    /// Something asked of what a handle names.
    /// Example: the line `len h0` is `Do` of `Verb::Len` with the subject 0.
    Do {
        subject: u64,
        verb: Verb,
    },
}

/// Lets go of a command that `Command::let_go` doesn't take apart.
#[inline(never)]
fn let_any_go(command: Command) {
    drop(command)
}

impl Command {
    /// Lets go of the command, as where it ends with its scope, but in less time. What ends with its
    /// scope spells out all its variants there, with room for the values of each, so the verbs that
    /// lines ask most often are taken apart by themselves.
    ///
    /// Example: of a command that appends `b"ab"` it gives the memory of `b"ab"` back.
    pub fn let_go(self) {
        match self {
            Command::Do {
                subject: _,
                verb: Verb::Get { key },
            } => drop(key),
            Command::Do {
                subject: _,
                verb: Verb::Set { key, value },
            } => {
                drop(key);
                drop(value);
            }
            Command::Do {
                subject: _,
                verb: Verb::Append { value },
            } => drop(value),
            Command::Do {
                subject: _,
                verb: Verb::View
                | Verb::ToBytes { order: None }
                | Verb::Release
                | Verb::Len
                | Verb::Iter
                | Verb::Next,
            } => {}
            other => let_any_go(other),
        }
    }
}

/// The reply of a world.
///
/// Example: the reply to the first command of a world, which makes a bytearray, is `Reply::Handle(0)`.
#[derive(Debug, Drop)]
pub enum Reply {
    /// Done, and there is nothing to say.
    /// Example: the command `append h0 100` replies `Ok`.
    Ok,
    /// The handle of what was made.
    /// Example: the first command of a world, which makes a bytearray, replies `Handle(0)`.
    Handle(u64),
    /// The handles of an exporter that was made, and of its one view.
    /// Example: `contig h2` replies `Pair` of the next two handles, of a vector and of its view.
    Pair { exporter: u64, view: u64 },
    /// A single number, byte, length or place, or an item of a view.
    /// Example: `get h0 0` of `b"Abc"` replies `Item` of 65.
    Item(Item),
    /// Items, in which the last index changes fastest, and the number of entries of each dimension.
    /// Example: `tolist h1` of a view of `b"ab"` replies the shape 2 and the items 97 and 98.
    Items { shape: CountList, items: ItemList },
    /// Bytes.
    /// Example: `bytes h0` of `b"Abc"` replies `Bytes` of `b"Abc"`.
    Bytes(ByteList),
    /// A text.
    /// Example: `prop h1 format` of a view of `b"Abc"` replies `Text` of `B`.
    Text(Text),
    /// The text that a subject is shown as, which is one line.
    /// Example: `repr h1` of a view replies `Shown` of `<memory 0>`, where it is its exporter's first.
    Shown(Text),
    /// A truth value that is no item.
    /// Example: `compare h0 == x416263` of `b"Abc"` replies `Truth(true)`.
    Truth(bool),
    /// Python's `NotImplemented`: the subject can't be compared with such a value.
    /// Example: `compare h0 < 'ab'` of bytes replies this.
    NotImplementedReply,
    /// Numbers, one for each dimension.
    /// Example: `prop h1 shape` of a view of `b"Abc"` replies `Numbers` of 3.
    Numbers(NumberList),
    /// Lists of bytes, in order.
    /// Example: `call h0 split x62` of `b"Abc"` replies `ByteLists` of `b"A"` and `b"c"`.
    ByteLists(ByteLists),
    /// An iterator has no further item.
    /// Example: the fourth `next h1` of an iterator over `b"Abc"` replies `Stop`.
    Stop,
    /// The command was refused. Nothing was changed, and no handle was used up.
    /// Example: `get h0 3` of `b"Abc"` replies `Refused(Fault::Index)`.
    Refused(Fault),
}

/// Replies, in the order of their commands.
///
/// Example: the replies to `new bytearray x6162` and `len h0` in a new world are `Handle(0)` and `Item` of 2.
pub type ReplyList = Items<Reply>;
