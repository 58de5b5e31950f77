//! A view as it is kept.
ghost use Rattle.std.specs.Prelude.{◌≡◌, true, false, length};

use pybuf_memoryview::KeptLayout;
use pybuf_value::{Made, Twin};
use std::alloc::Global;
use std::marker::Model;

/// A view of an exporter. It costs a few words, whatever it spans. A clause sees the whole view, with
/// the place of each item.
/// Example: `StoredView::new(3, layout)` stands for an unreleased view of an exporter of three bytes.
#[derive(Debug, Drop)]
pub struct StoredView {
    made_at: usize,
    pub(crate) layout: KeptLayout,
    pub(crate) released: bool,
}

impl Model for StoredView {
    ghost use Rattle.pybuf_state.specs.Exporter.{View};

    ghost Value = { View };

    ghost view = { λ v. record { made_at = v.made_at; layout = v.layout; released = v.released } };
}

impl StoredView {
    /// An unreleased view with this layout, which was made when its exporter had this length. Takes no memory.
    /// Example: of `StoredView::new(3, layout)` `is_released()` is false.
    #[inline(always)]
    pub fn new(made_at: usize, layout: KeptLayout) -> StoredView
        ensures { result ≡ record { made_at = made_at; layout = layout; released = false } }
    {
        StoredView {
            made_at,
            layout,
            released: false,
        }
    }

    /// Where the items lie, and how they read, lent.
    /// Example: of `StoredView::new(3, layout)` it is `layout`.
    pub fn layout(&self) -> &KeptLayout
        ensures { result.now ≡ self.now.layout }
    {
        &self.layout
    }

    /// Whether the view was released.
    /// Example: after `view.release()` it is true.
    pub fn is_released(&self) -> bool
        ensures { result ≡ self.now.released }
    {
        self.released
    }

    /// Releases the view, and changes nothing else of it.
    /// Example: after it `is_released()` is true, and `layout()` is as before.
    pub fn release(&mut self)
        ensures { self.new ≡ record self.old { released = true } }
    {
        self.released = true;
    }
}

impl Twin for StoredView {
    fn copy(&self, alloc: Global) -> Made<StoredView> {
        let layout = self.layout.copy(alloc)?;
        Ok(StoredView {
            made_at: self.made_at,
            layout,
            released: self.released,
        })
    }
}
