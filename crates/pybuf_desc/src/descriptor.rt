//! The descriptor, how one is made, and what it says of itself.
ghost use Rattle.std.specs.Prelude.{◌≡◌, ◌==◌, ◌+◌, ◌*◌, ◌/◌, ◌%◌, ◌^◌, ◌<◌, ◌≤◌, ◌↔◌, ℕ, [], ◌∷◌, true, length, IfOk, IfErr, IsOk, IsTrue, codes};
ghost use Rattle.std.specs.List.{Any};
ghost use Rattle.pybuf_value.specs.declared.faults.Fault.{Fault};

use crate::checks::{are_inside, extent, has_later_entries, has_strides, has_zero, is_direct};
use crate::dims::Dims;
use crate::kept_format::KeptFormat;
use pybuf_value::{DimList, Fault, Made, Text, Twin};
use std::alloc::Global;
use std::marker::Model;

/// What the items of a buffer are and how far apart they lie (C API, "Buffer Protocol", "Buffer structure" and
/// "NumPy-style: shape and strides"). Where the items start is no part of it.
///
/// Lengths, sizes and strides are in bytes. Each dimension has its number of entries, its stride, and its suboffset,
/// which is 0 in a valid descriptor.
/// Example: `BufferDescriptor::simple(alloc, 3, false)?` stands for three items of one byte that may be written.
#[derive(Debug, Drop)]
pub struct BufferDescriptor {
    pub len: usize,
    pub readonly: bool,
    pub itemsize: usize,
    pub format: KeptFormat,
    dim_desc: Dims,
}

impl Model for BufferDescriptor {
    ghost use Rattle.pybuf_desc.specs.Descriptor.{Descriptor};

    ghost Value = { Descriptor };

    ghost view = { λ d. record { len = d.len; readonly = d.readonly; itemsize = d.itemsize; format = d.format; dims = d.dim_desc } };
}

/// How many items of a size make up so many bytes.
// The sizes of most formats are spelled out. A processor divides much faster by a power of two that is known
// beforehand.
#[inline(always)]
fn items_in(len: usize, itemsize: usize) -> usize
    requires { 0 < itemsize }
    ensures { result ≡ len / itemsize }
{
    match itemsize {
        1 => len,
        2 => len / 2,
        4 => len / 4,
        8 => len / 8,
        _ => len / itemsize,
    }
}

impl BufferDescriptor {
    ghost use Rattle.pybuf_desc.specs.Layouts.{flat_layout, bytes_layout, bytes_layout_from};
    ghost use Rattle.pybuf_desc.specs.Descriptor.{Descriptor, flat_descriptor, with_first};
    ghost use Rattle.pybuf_desc.specs.Places.{Stands, StandsChanged};
    ghost use Rattle.pybuf_desc.specs.Valid.{IsValid};

    /// The number of bytes of all items. Takes no memory.
    /// Example: of three items of two bytes it is 6.
    pub fn len(&self) -> usize
        ensures { result ≡ self.now.len }
    {
        self.len
    }

    /// Whether the items have no bytes. Takes no memory.
    /// Example: of `BufferDescriptor::simple(alloc, 0, false)?` it is true.
    pub fn is_empty(&self) -> bool
        ensures { result ≡ (self.now.len == 0) }
    {
        self.len == 0
    }

    /// Whether the items may only be read. Takes no memory.
    /// Example: of `BufferDescriptor::simple(alloc, 3, true)?` it is true.
    pub fn readonly(&self) -> bool
        ensures { result ≡ self.now.readonly }
    {
        self.readonly
    }

    /// The number of bytes of one item. Takes no memory.
    /// Example: of items of the format `H` it is 2.
    pub fn itemsize(&self) -> usize
        ensures { result ≡ self.now.itemsize }
    {
        self.itemsize
    }

    /// The format of one item, in the syntax of Python's `struct` module, lent. Takes no memory.
    /// Example: of `BufferDescriptor::simple(alloc, 3, false)?` it is the text `B`.
    pub fn format_text(&self) -> &KeptFormat
        ensures { result.now ≡ self.now.format }
    {
        &self.format
    }

    /// The number of entries, the stride and the suboffset of each dimension, from the outermost, lent. Takes no
    /// memory.
    /// Example: of bytes in the shape `[2, 3]`, row by row, it is `[(2, 3, 0), (3, 1, 0)]`.
    pub fn dim_desc(&self) -> &[(usize, isize, isize)]
        ensures { result.now ≡ self.now.dims }
    {
        self.dim_desc.as_slice()
    }

    /// The number of dimensions. Takes no memory.
    /// Example: of bytes in the shape `[2, 3]` it is 2.
    pub fn ndim(&self) -> usize
        ensures { result ≡ length self.now.dims }
    {
        self.dim_desc.as_slice().len()
    }

    /// Whether a dimension has no entry. Takes no memory.
    /// Example: of `BufferDescriptor::simple(alloc, 0, false)?` it is true.
    pub fn is_zero_in_shape(&self) -> bool
        ensures { IsTrue result ↔ Any (λ dim. dim.0 ≡ 0) self.now.dims }
    {
        has_zero(self.dim_desc.as_slice())
    }

    /// Whether the descriptor, with its first item at `start`, describes items that lie in a
    /// buffer of `room` bytes.
    ///
    /// Refused with `ValueError` exactly where the item size is 0 or past `isize::MAX`; there are
    /// over 64 dimensions; a stride is 0; a suboffset isn't 0; an entry after the first is 0; the
    /// item size times the entries that aren't 0 passes `isize::MAX`; the item size times all
    /// entries isn't `len`; or a byte of an item would lie outside `0..room`. Whatever the numbers
    /// are, none of this overflows.
    /// Example: `BufferDescriptor::simple(alloc, 3, false)?.validate(1, 4)` is `Ok(())`, and `validate(2, 4)` is refused.
    pub fn validate(&self, start: usize, room: usize) -> Result<(), Fault>
        ensures valid { IsOk result ↔ IsValid self.now start room }
        ensures refused { IfErr result (λ fault. fault ≡ Fault.Value) }
    {
        let dims = self.dim_desc.as_slice();
        if self.itemsize == 0 {
            return Err(Fault::Value);
        }
        if self.itemsize > isize::MAX as usize {
            return Err(Fault::Value);
        }
        if dims.len() > 64 {
            return Err(Fault::Value);
        }
        if !has_strides(dims) {
            return Err(Fault::Value);
        }
        if !is_direct(dims) {
            return Err(Fault::Value);
        }
        if !has_later_entries(dims) {
            return Err(Fault::Value);
        }
        match extent(self.itemsize, dims) {
            None => Err(Fault::Value),
            Some(extent) => {
                if has_zero(dims) {
                    if self.len != 0 {
                        return Err(Fault::Value);
                    }
                    return Ok(());
                }
                if self.len != extent {
                    return Err(Fault::Value);
                }
                if !are_inside(dims, self.itemsize, start, room) {
                    return Err(Fault::Value);
                }
                Ok(())
            }
        }
    }

    /// One dimension of bytes, wherever the first lies. The format is `B`, and there are as many items as bytes.
    /// Takes no memory.
    /// Example: `BufferDescriptor::simple(alloc, 3, false)?.dim_desc()` is `[(3, 1, 0)]`.
    pub fn simple(alloc: Global, bytes_len: usize, readonly: bool) -> Made<BufferDescriptor>
        requires { bytes_len < 2 ^ 63 }
        ensures made { IfOk result (λ d. d ≡ flat_descriptor (codes "B") 1 bytes_len readonly) }
        ensures valid { IfOk result (λ d. IsValid d 0 bytes_len) }
        ensures stands { IfOk result (λ d. Stands d 0 (bytes_layout bytes_len readonly)) }
        ensures valid_from { IfOk result (λ d. (start room : ℕ) → start + bytes_len ≤ room → IsValid d start room) }
        ensures stands_from { IfOk result (λ d. (start : ℕ) → Stands d start (bytes_layout_from start bytes_len readonly)) }
    {
        Ok(BufferDescriptor::flat(bytes_len, readonly, 1, KeptFormat::of_bytes(alloc)))
    }

    /// One dimension of items, one after the other, that make up so many bytes. Takes no memory.
    /// Example: of 6 bytes, the item size 2 and the format `H` the dimensions are `[(3, 2, 0)]`.
    pub fn format(
        _alloc: Global,
        bytes_len: usize,
        readonly: bool,
        itemsize: usize,
        format: Text,
    ) -> Made<BufferDescriptor>
        requires some_size { 0 < itemsize }
        requires size_fits { itemsize < 2 ^ 63 }
        requires len_fits { bytes_len < 2 ^ 63 }
        requires whole_items { bytes_len % itemsize ≡ 0 }
        ensures made { IfOk result (λ d. d ≡ flat_descriptor format itemsize (bytes_len / itemsize) readonly) }
        ensures valid { IfOk result (λ d. IsValid d 0 bytes_len) }
        ensures stands { IfOk result (λ d. Stands d 0 (flat_layout format itemsize (bytes_len / itemsize) readonly)) }
    {
        let format = KeptFormat::from_text(format);
        Ok(BufferDescriptor::flat(bytes_len, readonly, itemsize, format))
    }

    /// One dimension of items, one after the other, as `format`, of a format as it is kept. Takes no memory.
    /// Example: of 6 bytes, the item size 2 and the format `H` the dimensions are `[(3, 2, 0)]`.
    #[inline(always)]
    pub fn flat(
        bytes_len: usize,
        readonly: bool,
        itemsize: usize,
        format: KeptFormat,
    ) -> BufferDescriptor
        requires some_size { 0 < itemsize }
        requires size_fits { itemsize < 2 ^ 63 }
        requires len_fits { bytes_len < 2 ^ 63 }
        requires whole_items { bytes_len % itemsize ≡ 0 }
        ensures made { result ≡ flat_descriptor format itemsize (bytes_len / itemsize) readonly }
        ensures valid { IsValid result 0 bytes_len }
        ensures stands { Stands result 0 (flat_layout format itemsize (bytes_len / itemsize) readonly) }
    {
        BufferDescriptor {
            len: bytes_len,
            readonly,
            itemsize,
            format,
            dim_desc: Dims::one((items_in(bytes_len, itemsize), itemsize as isize, 0)),
        }
    }

    /// The same but for its length, and the entries and the stride of its first dimension.
    #[inline(always)]
    pub(crate) fn with_first(
        &self,
        alloc: Global,
        len: usize,
        count: usize,
        stride: isize,
    ) -> Made<BufferDescriptor>
        requires { 0 < length self.now.dims }
        ensures { IfOk result (λ d. d ≡ record self.now { len = len; dims = with_first self.now.dims count stride }) }
    {
        let format = self.format.copy(alloc)?;
        let dim_desc = self.dim_desc.with_first(alloc, count, stride)?;
        Ok(BufferDescriptor {
            len,
            readonly: self.readonly,
            itemsize: self.itemsize,
            format,
            dim_desc,
        })
    }

    /// The same items over the same bytes, which may only be read, as Python's `view.toreadonly()` (Library
    /// reference, "Memory Views"). It takes memory for a format of more than a letter, and for more dimensions than
    /// three.
    /// Example: `descriptor.to_readonly(alloc)?.readonly()` is true.
    pub fn to_readonly(&self, alloc: Global) -> Made<BufferDescriptor>
        ensures made { IfOk result (λ d. d ≡ record self.now { readonly = true }) }
        ensures valid { IfOk result (λ d. (start room : ℕ) → IsValid self.now start room → IsValid d start room) }
        ensures stands { IfOk result (λ d. StandsChanged self.now (λ view. record view { readonly = true }) d) }
    {
        let format = self.format.copy(alloc)?;
        let dim_desc = self.dim_desc.copy(alloc)?;
        Ok(BufferDescriptor {
            len: self.len,
            readonly: true,
            itemsize: self.itemsize,
            format,
            dim_desc,
        })
    }

    /// The descriptor of these parts, as they are given. Nothing is checked of them here; `validate` checks them.
    /// Takes no memory.
    /// Example: `raw(4, false, 2, format, dims)` with the dimension `(2, 3, 0)` describes two items of two bytes, at 0 and at 3.
    pub fn raw(
        len: usize,
        readonly: bool,
        itemsize: usize,
        format: Text,
        dim_desc: DimList,
    ) -> BufferDescriptor
        ensures { result ≡ record { len = len; readonly = readonly; itemsize = itemsize; format = format; dims = dim_desc } }
    {
        let format = KeptFormat::from_text(format);
        BufferDescriptor::from_dims(len, readonly, itemsize, format, Dims::from_list(dim_desc))
    }

    /// The record as given, with its dimensions as they are kept.
    pub(crate) fn from_dims(
        len: usize,
        readonly: bool,
        itemsize: usize,
        format: KeptFormat,
        dim_desc: Dims,
    ) -> BufferDescriptor
        ensures { result ≡ record { len = len; readonly = readonly; itemsize = itemsize; format = format; dims = dim_desc } }
    {
        BufferDescriptor {
            len,
            readonly,
            itemsize,
            format,
            dim_desc,
        }
    }
}

impl Twin for BufferDescriptor {
    fn copy(&self, alloc: Global) -> Made<BufferDescriptor> {
        let format = self.format.copy(alloc)?;
        let dim_desc = self.dim_desc.copy(alloc)?;
        Ok(BufferDescriptor {
            len: self.len,
            readonly: self.readonly,
            itemsize: self.itemsize,
            format,
            dim_desc,
        })
    }
}
