//! `hash`: the bytes that are fed to a hasher, as in Python's `hash(subject)`.
ghost use Rattle.pybuf_state.specs.Answers.{IsWhole, ReadsIn};
ghost use Rattle.pybuf_verbs_compare.specs.Hash as spec;

use pybuf_command::{ExporterKind, LocalReply};
use pybuf_memoryview::content_of;
use pybuf_state::Parts;
use pybuf_value::{ByteList, Fault, Halt};

/// The bytes of Python's `bytes`.
///
/// A bytearray may change, so its hash is refused with `TypeError`. A vector has none, and is refused with
/// `UnknownName`.
/// Example: of `bytes` `b"abc"` it replies the bytes `b"abc"`.
pub fn of_own(parts: &Parts) -> Result<LocalReply, Halt>
    ensures { ReadsIn parts.now spec.hash_of_own result }
{
    match parts.kind {
        ExporterKind::Vector { readonly: _ } => Err(Halt::Refused(Fault::UnknownName)),
        ExporterKind::ByteArray => Err(Halt::Refused(Fault::Kind)),
        ExporterKind::Bytes => {
            let bytes = Vec::from_slice(parts.alloc, parts.bytes.as_slice())?;
            Ok(LocalReply::Bytes(ByteList::from_vec(bytes)))
        }
    }
}

/// The bytes of a view's items, in order, whatever its format.
///
/// Refused with `UnknownName` for a view that was never given, and with `ValueError` for a released one, and for one
/// that may be written (Python's "Binary Sequence Types", on hashes of a memoryview).
/// Example: of a view of `bytes` `b"abc"` it replies the bytes `b"abc"`.
pub fn of_view(parts: &Parts, view: usize) -> Result<LocalReply, Halt>
    requires { IsWhole parts.now }
    ensures { ReadsIn parts.now (λ e. spec.hash_of_view e view) result }
{
    let layout = parts.live_layout(view)?;
    if !layout.is_readonly() {
        return Err(Halt::Refused(Fault::Value));
    }
    let bytes = content_of(parts.alloc, parts.bytes.as_slice(), layout)?;
    Ok(LocalReply::Bytes(ByteList::from_vec(bytes)))
}
