//! Strings of bytes, and the bytes that options ask for.
#![tactic(auto)]

mod arguments;
mod byte_str;
mod decoding;
mod inner;
mod letters;
mod methods;
mod needles;
mod options;
mod search_methods;
mod searching;
mod shaping;

pub use arguments::{ByteInnerFindOptions, ByteInnerSplitOptions};
pub use byte_str::ByteStr;
pub use decoding::{DecodeArgs, bytes_decode, decode_text};
pub use inner::PyBytesInner;
pub use letters::SplitLinesArgs;
pub use methods::MethodReply;
pub use needles::Needle;
pub use options::NewOptions;
pub use pybuf_command::{ByteInnerNewOptions, MethodCall, MethodName};
pub use pybuf_letters::is_py_ascii_whitespace;
pub use pybuf_search::{
    AnyStrWrapper, SplitArgs, StartsEndsWithArgs, StringRange, adjust_indices, bytes_lent,
    endswith, single_or_tuple_any, startswith,
};
pub use pybuf_shaping::{ByteInnerPaddingOptions, ByteInnerTranslateOptions, ExpandTabsArgs};
pub use searching::{
    concat_with, contains_needle, count_between, find_between, partition_at, rpartition_at,
    rsplit_at, split_at,
};
pub use shaping::bytes_to_hex;
