//! `prop`: a property of an exporter or of a view.
ghost use Rattle.std.specs.Prelude.{◌≡◌, map, IfOk};
ghost use Rattle.pybuf_command.specs.declared.commands.PropertyName.TheVariants as names;
ghost use Rattle.pybuf_value.specs.Halting.{Gives};
ghost use Rattle.pybuf_state.specs.Answers.{IsWhole, ReadsIn, as_counts, as_numbers};
ghost use Rattle.pybuf_verbs_reads.specs.Property.{is_exports, property_of_layout, property_of_own, property_of_view};

use crate::len::count_item;
use pybuf_command::{LocalReply, PropertyName};
use pybuf_memoryview::KeptLayout;
use pybuf_state::Parts;
use pybuf_value::{Fault, Halt, Made};
use std::alloc::Global;

/// The number of unreleased views, which is the property `exports`. Refused with `UnknownName` for every other
/// property.
/// Example: of an exporter with one unreleased view `PropertyName::Exports` replies the item 1.
pub fn of_own(parts: &Parts, name: PropertyName) -> Result<LocalReply, Halt>
    requires { IsWhole parts.now }
    ensures { ReadsIn parts.now (λ e. property_of_own e name) result }
{
    match name {
        PropertyName::Exports => Ok(LocalReply::Item(count_item(parts.exports))),
        _ => Err(Halt::Refused(Fault::UnknownName)),
    }
}

/// What a view shows.
fn of_layout(alloc: Global, layout: &KeptLayout, name: PropertyName) -> Result<LocalReply, Halt>
    ensures { Gives (property_of_layout layout.now name) result }
{
    match name {
        PropertyName::Exports => Err(Halt::Refused(Fault::UnknownName)),
        PropertyName::Obj => Ok(LocalReply::Own),
        PropertyName::Nbytes => Ok(LocalReply::Item(count_item(layout.nbytes()))),
        PropertyName::Readonly => Ok(LocalReply::Truth(layout.is_readonly())),
        PropertyName::Itemsize => Ok(LocalReply::Item(count_item(layout.itemsize()))),
        PropertyName::Ndim => Ok(LocalReply::Item(count_item(layout.ndim()))),
        PropertyName::Shape => Ok(LocalReply::Numbers(layout.shape(alloc)?)),
        PropertyName::Strides => Ok(LocalReply::Numbers(layout.strides(alloc)?)),
        PropertyName::Suboffsets => Ok(LocalReply::Numbers(layout.suboffsets(alloc)?)),
        PropertyName::Format => Ok(LocalReply::Text(layout.format_text().to_text(alloc)?)),
        PropertyName::Contiguous => Ok(LocalReply::Truth(
            layout.is_contiguous() || layout.is_f_contiguous(),
        )),
        PropertyName::CContiguous => Ok(LocalReply::Truth(layout.is_contiguous())),
        PropertyName::FContiguous => Ok(LocalReply::Truth(layout.is_f_contiguous())),
    }
}

/// Whether a property is the number of unreleased views.
fn is_exports(name: PropertyName) -> bool
    ensures { result ≡ is_exports name }
{
    match name {
        PropertyName::Exports => true,
        _ => false,
    }
}

/// The stride of each dimension.
fn strides_of(alloc: Global, dims: &[(usize, isize, isize)]) -> Made<Vec<isize>>
    ensures { IfOk result (λ strides. strides.items ≡ map (λ dim. dim.1) dims.now) }
{
    let mut strides = Vec::with_capacity(alloc, dims.len())?;
    for dim in dims {
        strides.push(dim.1)?;
    }
    Ok(strides)
}

/// The number of entries of each dimension of a view. Refused with `UnknownName` for a view that was never given, and
/// with `ValueError` for a released one.
/// Example: of a view of six bytes that was cast in the shape `(2, 3)` it has 2 and 3.
pub fn shape(parts: &Parts, view: usize) -> Result<Vec<usize>, Halt>
    requires { IsWhole parts.now }
    ensures { ReadsIn parts.now (λ e. property_of_view e view names.Shape) (as_counts result) }
{
    let layout = parts.live_layout(view)?;
    Ok(layout.counts(parts.alloc)?.into_vec())
}

/// The stride of each dimension of a view, in bytes. Refused with `UnknownName` for a view that was never given, and
/// with `ValueError` for a released one.
/// Example: of a view of six bytes that was cast in the shape `(2, 3)` it has 3 and 1.
pub fn strides(parts: &Parts, view: usize) -> Result<Vec<isize>, Halt>
    requires { IsWhole parts.now }
    ensures { ReadsIn parts.now (λ e. property_of_view e view names.Strides) (as_numbers result) }
{
    let layout = parts.live_layout(view)?;
    let (descriptor, _start) = layout.placed();
    Ok(strides_of(parts.alloc, descriptor.dim_desc())?)
}

/// A property of a view. Refused with `UnknownName` for `exports`, which is no property of a view, and for a view
/// that was never given, and with `ValueError` for a released one.
/// Example: of a view of three bytes `PropertyName::Nbytes` replies the item 3.
pub fn of_view(parts: &Parts, view: usize, name: PropertyName) -> Result<LocalReply, Halt>
    requires { IsWhole parts.now }
    ensures { ReadsIn parts.now (λ e. property_of_view e view name) result }
{
    if is_exports(name) {
        return Err(Halt::Refused(Fault::UnknownName));
    }
    let layout = parts.live_layout(view)?;
    of_layout(parts.alloc, layout, name)
}
