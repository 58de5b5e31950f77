//! Commands and replies of one exporter.
use crate::kinds::Subject;
use crate::loans::LoanList;
use crate::methods::MethodCall;
use crate::options::ByteInnerNewOptions;
use pybuf_value::{
    ByteList, ByteLists, CompareOp, CountList, Fault, Item, ItemList, Made, NoMemory, NumberList,
    Snap, Text, Twin, Value,
};
use std::alloc::Global;

/// A property of an exporter or a view, by the name of the attribute of Python's `memoryview`.
///
/// Example: `PropertyName::Nbytes` of a view of `b"Abc"` asks for 3.
#[derive(Clone, Copy, Debug, PartialEq, Eq)]
pub enum PropertyName {
    /// The number of unreleased views of an exporter.
    /// Example: of a bytearray with one unreleased view it is 1.
    Exports,
    /// The exporter of a view.
    /// Example: of a view of the bytearray `h0` it is `h0`.
    Obj,
    /// The number of bytes of all items.
    /// Example: of a view of `b"Abc"` it is 3.
    Nbytes,
    /// Whether the items can only be read.
    /// Example: of a view of a bytearray it is false, and of a view of bytes it is true.
    Readonly,
    /// The number of bytes of an item.
    /// Example: of a view with the format `H` it is 2.
    Itemsize,
    /// The number of dimensions.
    /// Example: of a view of `b"Abc"` it is 1.
    Ndim,
    /// The number of entries of each dimension.
    /// Example: of a view of `b"Abc"` it is `(3,)`.
    Shape,
    /// The distance in bytes from one entry to the next, for each dimension.
    /// Example: of a view with two rows of three bytes it is `(3, 1)`.
    Strides,
    /// For each dimension 0, since no item is reached through a pointer.
    /// Example: of a view of `b"Abc"` it is `(0,)`.
    Suboffsets,
    /// The format of an item.
    /// Example: of a view of `b"Abc"` it is `'B'`.
    Format,
    /// Whether the items lie one after the other, in the order of C or in that of Fortran.
    /// Example: of a view of `b"Abc"` it is true, and of its every second item it is false.
    Contiguous,
    /// Whether the items lie one after the other in the order of C, where the last index changes
    /// fastest.
    /// Example: of a view with two rows of three bytes by `cast` it is true, and by `cast_f` it is false.
    CContiguous,
    /// Whether the items lie one after the other in the order of Fortran, where the first index changes
    /// fastest.
    /// Example: of a view with two rows of three bytes by `cast_f` it is true.
    FContiguous,
}

/// What is asked of a subject.
///
/// Example: `Verb::Len` of a bytearray of `b"Abc"` asks for its length, which is 3.
#[derive(Debug, Drop, PartialEq)]
pub enum Verb {
    /// A new view of the subject, as `memoryview(subject)`.
    /// Example: of a bytearray of `b"Abc"` it makes a view of three items.
    View,
    /// A new view of the bytes of an exporter from one place up to another, as
    /// `memoryview(subject)[from:to]` where both places are there.
    /// Example: from 1 up to 3 of `b"Abc"` it makes a view of `b"bc"`.
    Range {
        from: Value,
        to: Value,
    },
    /// The item at a key, as `subject[key]`.
    /// Example: of `b"Abc"` at the key -1 it is 99.
    Get {
        key: Value,
    },
    /// Writes the item at a key, as `subject[key] = value`.
    /// Example: with the key 0 and the value 97 the bytearray of `b"Abc"` becomes `b"abc"`.
    Set {
        key: Value,
        value: Value,
    },
    /// A new view of the same bytes with items of another format, as `view.cast(format, shape)`.
    /// Example: of a view of four bytes to the format `H` it makes a view of two items.
    Cast {
        format: Value,
        shape: Option<Value>,
    },
    /// A new view of the same bytes with items of another format, in dimensions whose items lie one after the other in
    /// the order of Fortran.
    /// Example: of the bytes 0 to 5 to `B` with the shape `(2, 3)` it makes a view whose `tolist` is `[[0, 2, 4], [1, 3, 5]]`.
    CastF {
        format: Value,
        shape: Value,
    },
    /// The subject's bytes, as `bytes(subject)`; of a view in an order, as `view.tobytes(order)`.
    /// Example: of a view of every second item of `b"abcd"` it is `b"ac"`.
    ToBytes {
        order: Option<Value>,
    },
    /// Releases a view, as `view.release()`.
    /// Example: a bytearray whose one view is released can be resized again.
    Release,
    /// The view itself, as `view.__enter__()`.
    /// Example: of the view 0 it replies the view 0 itself.
    Enter,
    /// Releases a view, as `view.__exit__()`.
    /// Example: a view is released once it was asked this.
    Exit,
    /// A new vector of a view's bytes, and a view of it with items of the same format and shape that
    /// lie one after the other, as `PyMemoryView_GetContiguous(view, PyBUF_READ, 'C')` of a view that
    /// isn't contiguous.
    /// Example: of every second item of `b"abcd"` it makes a vector of `b"ac"`, and a view of it.
    ToContiguous,
    /// The items with the shape of the view, as `view.tolist()`.
    /// Example: of a view of `b"ab"` it is `[97, 98]`.
    ToList,
    /// The number of items, as `len(subject)`.
    /// Example: of `b"Abc"` it is 3.
    Len,
    /// A property, as `view.nbytes` and the other attributes of a view.
    /// Example: `PropertyName::Nbytes` of a view of `b"Abc"` is 3.
    Property {
        name: PropertyName,
    },
    /// A new view of the same items, which may only be read, as `view.toreadonly()`.
    /// Example: an item of the view that it makes can't be set.
    ToReadonly,
    /// Takes out the item at an index or the items of a slice, as `del subject[key]`.
    /// Example: with the key 0 the bytearray of `b"Abc"` becomes `b"bc"`.
    Del {
        key: Value,
    },
    /// Adds a byte at the end, as `bytearray.append(value)`.
    /// Example: with the value 100 the bytearray of `b"Abc"` becomes `b"Abcd"`.
    Append {
        value: Value,
    },
    /// Adds bytes at the end, as `bytearray.extend(value)`.
    /// Example: with the value `b"de"` the bytearray of `b"Abc"` becomes `b"Abcde"`.
    Extend {
        value: Value,
    },
    /// Puts a byte before the item at an index, as `bytearray.insert(index, value)`.
    /// Example: with the index -1 and the value 90 the bytearray of `b"Abc"` becomes `b"AbZc"`.
    Insert {
        index: Value,
        value: Value,
    },
    /// Takes out the item at an index, the last where none is given, as `bytearray.pop(index)`.
    /// Example: without an index of the bytearray of `b"Abc"` it is 99, and `b"Ab"` is left.
    Pop {
        index: Option<Value>,
    },
    /// Takes out the first byte of this value, as `bytearray.remove(value)`.
    /// Example: with the value 98 the bytearray of `b"Abcb"` becomes `b"Acb"`.
    Remove {
        value: Value,
    },
    /// Takes out all bytes, as `bytearray.clear()`.
    /// Example: the bytearray of `b"Abc"` becomes `b""`.
    Clear,
    /// Turns the order of the bytes round, as `bytearray.reverse()`.
    /// Example: the bytearray of `b"Abc"` becomes `b"cbA"`.
    Reverse,
    /// Adds bytes at the end, as `bytearray += value`.
    /// Example: with the value `b"de"` the bytearray of `b"Abc"` becomes `b"Abcde"`.
    IAdd {
        value: Value,
    },
    /// Repeats the bytes, as `bytearray *= count`.
    /// Example: with the count 2 the bytearray of `b"Abc"` becomes `b"AbcAbc"`.
    IMul {
        count: Value,
    },
    /// Puts new bytes in place of all, as `bytearray.__init__(source, encoding, errors)`.
    /// Example: with the source `b"ab"` the bytearray of `b"Abc"` becomes `b"ab"`.
    Init {
        options: ByteInnerNewOptions,
    },
    /// Hands out the bytes of a vector, which is empty then.
    /// Example: of a vector of `b"Abc"` it is `b"Abc"`, and no byte is left there.
    Take,
    /// A new bytearray of the same bytes, as `bytearray.copy()`.
    /// Example: of a bytearray of `b"Abc"` it makes another bytearray of `b"Abc"`.
    Copy,
    /// Compares the subject with another value, as `subject == other` and the other operators.
    /// Example: of `b"Abc"` by `CompareOp::Eq` with `b"Abc"` it is true.
    Compare {
        op: CompareOp,
        other: Value,
    },
    /// The bytes that are fed to a hasher, as in `hash(subject)`.
    /// Example: of `b"Abc"` it is `b"Abc"`.
    Hash,
    /// The subject's text, as `repr(subject)`.
    /// Example: of `b"Abc"` it is `b'Abc'`.
    Repr,
    /// A new iterator over the subject from its first item on, as `iter(subject)`; of an iterator,
    /// that one itself.
    /// Example: of `b"Abc"` it makes an iterator that stands at `A`.
    Iter,
    /// The next item, as `next(iterator)`.
    /// Example: of a new iterator over `b"Abc"` it is 65, and then 98.
    Next,
    /// How many items are still to come, as `iterator.__length_hint__()`.
    /// Example: of a new iterator over `b"Abc"` it is 3.
    LengthHint,
    /// Puts an iterator at another item, as `iterator.__setstate__(state)`.
    /// Example: with the state 2 the next item of an iterator over `b"Abc"` is 99.
    SetState {
        state: Value,
    },
    /// Whether a byte or bytes stand in the subject, as `value in subject`.
    /// Example: of `b"Abc"` with the value `b"bc"` it is true.
    Contains {
        value: Value,
    },
    /// The bytes of a view as hexadecimal digits, as `view.hex(sep, bytes_per_sep)`.
    /// Example: of a view of `b"Abc"` with the separator `':'` it is `'41:62:63'`.
    Hex {
        sep: Option<Value>,
        group: Option<Value>,
    },
    /// Calls a method of bytes and bytearrays, as `subject.find(value)`.
    /// Example: `MethodName::Upper` of `b"Abc"` is `b"ABC"`.
    Call {
        method: MethodCall,
    },
}

/// A command for one exporter, with what the handles of its values name.
///
/// Example: `Subject::Own`, `Verb::Len` and no loans ask for the length of the exporter itself.
#[derive(Debug, Drop, PartialEq)]
pub struct LocalCommand {
    pub subject: Subject,
    pub verb: Verb,
    pub loans: LoanList,
}

/// The reply of one exporter.
///
/// Example: the reply to `Verb::Len` of `b"Abc"` is `LocalReply::Item` of 3.
#[derive(Debug, Drop, PartialEq)]
pub enum LocalReply {
    /// Done, and there is nothing to say.
    /// Example: `Verb::Append` of a byte replies `Ok`.
    Ok,
    /// The number of the view that was made.
    /// Example: the first `Verb::View` of an exporter replies `View(0)`.
    View(usize),
    /// The number of the iterator that was made.
    /// Example: the first `Verb::Iter` of an exporter replies `Iter(0)`.
    Iter(usize),
    /// The subject itself.
    /// Example: `Verb::Enter` of a view replies `Itself`.
    Itself,
    /// The exporter itself.
    /// Example: `PropertyName::Obj` of a view replies `Own`.
    Own,
    /// A single number, byte, length or place, or an item of a view.
    /// Example: `Verb::Get` of `b"Abc"` at 0 replies `Item` of 65.
    Item(Item),
    /// Items, in which the last index changes fastest, and the number of entries of each dimension.
    /// Example: `Verb::ToList` of a view of `b"ab"` replies the shape 2 and the items 97 and 98.
    Items { shape: CountList, items: ItemList },
    /// Bytes.
    /// Example: `Verb::ToBytes` of `b"ab"` replies `Bytes` of `b"ab"`.
    Bytes(ByteList),
    /// A text.
    /// Example: `PropertyName::Format` of a view of `b"ab"` replies `Text` of `B`.
    Text(Text),
    /// The text that a subject is shown as.
    /// Example: `Verb::Repr` of `b"ab"` replies `Shown` of `b'ab'`.
    Shown(Text),
    /// A truth value that is no item.
    /// Example: `Verb::Compare` of `b"ab"` with `b"ab"` by `==` replies `Truth(true)`.
    Truth(bool),
    /// Python's `NotImplemented`: the subject can't be compared with such a value.
    /// Example: `Verb::Compare` of `b"ab"` with the text `ab` replies this.
    NotImplementedReply,
    /// Numbers, one for each dimension.
    /// Example: `PropertyName::Shape` of a view of `b"ab"` replies `Numbers` of 2.
    Numbers(NumberList),
    /// Lists of bytes, in order.
    /// Example: `MethodName::Split` of `b"a b"` replies `ByteLists` of `b"a"` and `b"b"`.
    ByteLists(ByteLists),
    /// An iterator has no further item: Python's `StopIteration`.
    /// Example: the third `Verb::Next` of an iterator over `b"ab"` replies `Stop`.
    Stop,
    /// What a new exporter is to be made of: of a bytearray, another of its bytes; of a view, a vector
    /// of its content with a view of it in this format and shape.
    /// Example: `Verb::Copy` of a bytearray of `b"ab"` replies `Fresh` of a snap of `b"ab"`.
    Fresh(Snap),
    /// The command was refused, and nothing was changed.
    /// Example: `Verb::Get` of `b"ab"` at 2 replies `Refused(Fault::Index)`.
    Refused(Fault),
}

impl Twin for LocalCommand {
    fn copy(&self, alloc: Global) -> Made<LocalCommand> {
        let subject = self.subject;
        // The verb is copied last, so that no arm drops one. Such a drop would spell out all its variants.
        let loans = self.loans.copy(alloc)?;
        match self.verb.copy(alloc) {
            Ok(verb) => Ok(LocalCommand {
                subject,
                verb,
                loans,
            }),
            Err(NoMemory) => {
                drop(loans);
                Err(NoMemory)
            }
        }
    }
}

impl Twin for LocalReply {
    fn copy(&self, alloc: Global) -> Made<LocalReply> {
        match self {
            LocalReply::Ok => Ok(LocalReply::Ok),
            LocalReply::View(view) => Ok(LocalReply::View(*view)),
            LocalReply::Iter(iterator) => Ok(LocalReply::Iter(*iterator)),
            LocalReply::Itself => Ok(LocalReply::Itself),
            LocalReply::Own => Ok(LocalReply::Own),
            LocalReply::Item(item) => {
                let item = item.copy(alloc)?;
                Ok(LocalReply::Item(item))
            }
            LocalReply::Items { shape, items } => {
                let shape = shape.copy(alloc)?;
                let items = items.copy(alloc)?;
                Ok(LocalReply::Items { shape, items })
            }
            LocalReply::Bytes(bytes) => {
                let bytes = bytes.copy(alloc)?;
                Ok(LocalReply::Bytes(bytes))
            }
            LocalReply::Text(text) => {
                let text = text.copy(alloc)?;
                Ok(LocalReply::Text(text))
            }
            LocalReply::Shown(text) => {
                let text = text.copy(alloc)?;
                Ok(LocalReply::Shown(text))
            }
            LocalReply::Truth(truth) => Ok(LocalReply::Truth(*truth)),
            LocalReply::NotImplementedReply => Ok(LocalReply::NotImplementedReply),
            LocalReply::Numbers(numbers) => {
                let numbers = numbers.copy(alloc)?;
                Ok(LocalReply::Numbers(numbers))
            }
            LocalReply::ByteLists(lists) => {
                let lists = lists.copy(alloc)?;
                Ok(LocalReply::ByteLists(lists))
            }
            LocalReply::Stop => Ok(LocalReply::Stop),
            LocalReply::Fresh(snap) => {
                let snap = snap.copy(alloc)?;
                Ok(LocalReply::Fresh(snap))
            }
            LocalReply::Refused(fault) => Ok(LocalReply::Refused(*fault)),
        }
    }
}
