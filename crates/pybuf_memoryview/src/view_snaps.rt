//! What a view is lent as, and which formats look at what is lent.
ghost use Rattle.std.specs.Prelude.{◌≡◌, false, length, IfOk};
ghost use Rattle.pybuf_desc.specs.Layouts.{LiesInside};
ghost use Rattle.pybuf_memoryview.specs.Reading as reading;
ghost use Rattle.pybuf_memoryview.specs.Snaps as spec;

use crate::content::content_of;
use crate::kept::KeptLayout;
use pybuf_struct::{FormatCode, FormatSpec, FormatType};
use pybuf_value::{ByteList, Made, Snap, SnapKind};
use std::alloc::Global;

/// The bytes of a view's items, none of a released one.
fn bytes_lent(alloc: Global, bytes: &[u8], layout: &KeptLayout, released: bool) -> Made<ByteList>
    requires { released ≡ false → LiesInside (length bytes.now) layout.now }
    ensures { IfOk result (λ list. list ≡ (spec.snap_of_layout bytes.now layout.now released).content) }
{
    if released {
        return Ok(ByteList::new(alloc));
    }
    let content = content_of(alloc, bytes, layout)?;
    Ok(ByteList::from_vec(content))
}

/// What a view is lent as: a copy of it as it stands, with the bytes of its items. A released one has no bytes.
/// Example: of the slice `::-2` of `b"abcdef"` the content is `b"fdb"`.
pub fn snap_of_layout(
    alloc: Global,
    bytes: &[u8],
    layout: &KeptLayout,
    released: bool,
) -> Made<Snap>
    requires { released ≡ false → LiesInside (length bytes.now) layout.now }
    ensures { IfOk result (λ snap. snap ≡ spec.snap_of_layout bytes.now layout.now released) }
{
    let format = layout.format_text().to_text(alloc)?;
    let shape = layout.counts(alloc)?;
    let content = bytes_lent(alloc, bytes, layout, released)?;
    Ok(Snap {
        kind: SnapKind::View,
        format,
        itemsize: layout.itemsize(),
        shape,
        content,
        contiguous: layout.is_contiguous(),
        released,
    })
}

/// An unreleased view as a copy of its bytes has it, where its items lie one after the other.
/// Example: of the slice `::-2` of `b"abcdef"` the content is `b"fdb"`, and the items count as contiguous.
pub fn snap_of_copy(alloc: Global, bytes: &[u8], layout: &KeptLayout) -> Made<Snap>
    requires { LiesInside (length bytes.now) layout.now }
    ensures { IfOk result (λ snap. snap ≡ spec.snap_of_copy bytes.now layout.now) }
{
    let mut snap = snap_of_layout(alloc, bytes, layout, false)?;
    snap.contiguous = true;
    Ok(snap)
}

/// Whether a code's values are bytes.
fn is_bytes_code(code: &FormatCode) -> bool
    ensures { result ≡ reading.is_bytes_code code.now.code }
{
    match code.code() {
        FormatType::Char => true,
        FormatType::Str => true,
        FormatType::Pascal => true,
        _ => false,
    }
}

/// Whether a format looks at the bytes that a handle names. It does exactly where it has a code for bytes. Takes no
/// memory.
/// Example: of the format `4s` it is true, and of `H` false.
pub fn reads_bytes(format: &FormatSpec) -> bool
    ensures { result ≡ reading.reads_bytes format.now }
{
    format.codes().iter().any(is_bytes_code)
}
