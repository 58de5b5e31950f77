//! What arrays are asked, and what they reply.
use pybuf_value::{ByteList, Fault, Items, NumberList, PySlice};

/// Whole numbers.
/// Example: the reply to `ArrayOp::ToList` of `array('h', [1, -2])` holds an `IntList` of 1 and -2.
pub type IntList = NumberList;

/// Replies, in order.
/// Example: after two operations by `PyArray::run` it has two replies more.
pub type ArrayReplyList = Items<ArrayReply>;

/// What an array is asked.
/// Example: `ArrayOp::Len` stands for Python's `len(array)`.
#[derive(Debug, Drop)]
pub enum ArrayOp {
    /// Adds a number at the end, as `array.append(value)`.
    /// Example: with the value 2 it makes `array('h', [1])` into `array('h', [1, 2])`.
    Append {
        value: i128,
    },
    /// Adds numbers at the end, as `array.extend(values)`.
    /// Example: with the values 2 and 3 it makes `array('h', [1])` into `array('h', [1, 2, 3])`.
    Extend {
        values: IntList,
    },
    /// Puts a number before the place that is nearest to an index, as `array.insert(index, value)`.
    /// Example: with the index 0 and the value 2 it makes `array('h', [1])` into `array('h', [2, 1])`.
    Insert {
        index: i128,
        value: i128,
    },
    /// Takes the number at an index out, the last where none is given, as `array.pop(index)`.
    /// Example: without an index it makes `array('h', [1, 2])` into `array('h', [1])`, and replies 2.
    Pop {
        index: Option<i128>,
    },
    /// Takes out the first number that is this one, as `array.remove(value)`.
    /// Example: with the value 1 it makes `array('h', [1, 2, 1])` into `array('h', [2, 1])`.
    Remove {
        value: i128,
    },
    /// Adds the numbers of bytes at the end, as `array.frombytes(bytes)`.
    /// Example: with `b"\x02\x00"` it makes `array('h', [1])` into `array('h', [1, 2])`.
    FromBytes {
        bytes: ByteList,
    },
    /// Asks for the number at an index, as `array[index]`.
    /// Example: with the index -1 `array('h', [1, -2])` replies -2.
    Get {
        index: i128,
    },
    /// Puts another number at an index, as `array[index] = value`.
    /// Example: with the index 0 and the value 5 it makes `array('h', [1])` into `array('h', [5])`.
    Set {
        index: i128,
        value: i128,
    },
    /// Asks how many numbers there are, as `len(array)`.
    /// Example: `array('h', [1, -2])` replies 2.
    Len,
    /// Asks for all numbers, as `array.tolist()`.
    /// Example: `array('h', [1, -2])` replies the numbers 1 and -2.
    ToList,
    /// Asks for all bytes, as `array.tobytes()`.
    /// Example: `array('h', [1])` replies `b"\x01\x00"`.
    ToBytes,
    /// Turns the bytes of each number round, as `array.byteswap()`.
    /// Example: it makes `array('h', [1])` into `array('h', [256])`.
    ByteSwap,
    /// Makes a view of all numbers, as `memoryview(array)`.
    /// Example: a new array replies `ArrayReply::View(0)`.
    View,
    /// Makes a view of those numbers of a view that a slice picks, as `view[slice]`.
    /// Example: the slice `1:None:1` of a view of `array('h', [1, -2, 3])` shows -2 and 3.
    ViewSlice {
        view: usize,
        slice: PySlice,
    },
    /// Asks for the number at an index of a view, as `view[index]`.
    /// Example: with the index -1 a view of `array('h', [1, -2])` replies -2.
    ViewGet {
        view: usize,
        index: i128,
    },
    /// Puts another number at an index of a view, as `view[index] = value`.
    /// Example: with the index 0 and the value 5 through a view of all, `array('h', [1])` becomes `array('h', [5])`.
    ViewSet {
        view: usize,
        index: i128,
        value: i128,
    },
    /// Releases a view, as `view.release()`.
    /// Example: of the view 0 it replies `ArrayReply::Ok`, also a second time.
    Release {
        view: usize,
    },
}

/// What an array replies.
/// Example: `ArrayReply::Number(2)` stands for what `len` of two numbers replies.
#[derive(Debug, Drop)]
pub enum ArrayReply {
    /// The operation is done, and there is nothing else to say.
    /// Example: `append` of a number in range replies it.
    Ok,
    /// A number of the array, or how many there are.
    /// Example: `pop` of `array('h', [1, 2])` replies `ArrayReply::Number(2)`.
    Number(i128),
    /// All numbers of the array, in order.
    /// Example: `tolist` of `array('h', [1, -2])` replies it with 1 and -2.
    Numbers(IntList),
    /// The bytes of all numbers of the array.
    /// Example: `tobytes` of `array('h', [1])` replies it with `b"\x01\x00"`.
    Bytes(ByteList),
    /// The number of a new view.
    /// Example: the first view of an array is `ArrayReply::View(0)`.
    View(usize),
    /// The operation was refused, and nothing changed.
    /// Example: `append` of 40,000 to an array of the code `h` replies `ArrayReply::Refused(Fault::Overflow)`.
    Refused(Fault),
}
