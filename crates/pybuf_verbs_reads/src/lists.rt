//! All items of a view.
ghost use Rattle.std.specs.Prelude.{◌≡◌, ◌<◌, ℕ, List, length, IfOk};
ghost use Rattle.pybuf_desc.specs.Layouts.{LiesInside};
ghost use Rattle.pybuf_desc.specs.Items.{content_of_layout};
ghost use Rattle.pybuf_memoryview.specs.Lists.{items_of_layout};
ghost use Rattle.pybuf_verbs_reads.specs.ItemRuns as runs;
ghost use Rattle.pybuf_verbs_reads.specs.ToList.{list_shape};

use pybuf_memoryview::{ItemReader, KeptLayout, read_by, reader_of};
use pybuf_value::{CountList, ItemList, Made};
use std::alloc::Global;

/// The items of bytes in which they lie one after the other.
fn items_of_run(alloc: Global, reader: &ItemReader, size: usize, run: &[u8]) -> Made<ItemList>
    requires some_size { 0 < size }
    ensures { IfOk result (λ items. items ≡ runs.items_of_run reader.now size run.now) }
{
    let mut left = run.len() / size;
    let mut items = Vec::with_capacity(alloc, left)?;
    let mut rest = run;
    while left > 0 {
        left -= 1;
        let (bytes, others) = rest.split_at(size);
        let item = read_by(alloc, reader, bytes)?;
        items.push(item)?;
        rest = others;
    }
    Ok(ItemList::from_vec(items))
}

/// All items of a view, in order, read from its bytes, which lie one item after the other. The format is read once.
pub(crate) fn items_of(alloc: Global, layout: &KeptLayout, content: &[u8]) -> Made<ItemList>
    ensures { (bytes : List ℕ) → LiesInside (length bytes) layout.now → content.now ≡ content_of_layout bytes layout.now → IfOk result (λ items. items ≡ items_of_layout bytes layout.now) }
{
    let (descriptor, _) = layout.placed();
    let size = descriptor.itemsize();
    let reader = reader_of(alloc, layout.format_text(), size)?;
    items_of_run(alloc, &reader, size, content)
}

/// The shape that the items of a view are nested by in a list: its own, and that of a list of one for
/// a view without dimensions.
pub(crate) fn list_shape(alloc: Global, layout: &KeptLayout) -> Made<CountList>
    ensures { IfOk result (λ shape. shape ≡ list_shape layout.now.shape) }
{
    let mut shape = layout.counts(alloc)?;
    if shape.is_empty() {
        shape.push(1)?;
    }
    Ok(shape)
}
