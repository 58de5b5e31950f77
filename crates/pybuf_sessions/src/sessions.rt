//! What an input of sessions says.

use pybuf_command::ExporterKind;
use pybuf_share::ScriptList;
use pybuf_value::ByteList;

/// What the lines of sessions ask: the kind and the bytes of the exporter, and a script for each
/// session.
///
/// Example: of `new bytearray x6162` and `0 len own` it has the kind `ByteArray`, the bytes `b"ab"` and one script.
#[derive(Debug, Drop)]
pub struct Sessions {
    pub kind: ExporterKind,
    pub bytes: ByteList,
    pub scripts: ScriptList,
}
