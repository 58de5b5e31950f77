//! The bytes of a view, lent where they lie one after the other.
ghost use Rattle.std.specs.Prelude.{◌≡◌, ◌≤◌, true, length, slice_range, slice_index};
ghost use Rattle.pybuf_desc.specs.Contiguous.{is_contiguous_layout};
ghost use Rattle.pybuf_desc.specs.Items.{content_of_layout};

use crate::parts::Parts;
use pybuf_memoryview::first_place;

impl Parts {
    ghost use Rattle.std.specs.Borrow.{sem};
    ghost use Rattle.pybuf_state.specs.Answers.{exporter_of, IsWhole};
    ghost use Rattle.pybuf_state.specs.Live.{is_live, layout_of, is_writable_run};
    ghost use Rattle.pybuf_state.specs.Lending.{LendsRun, IsRunOf, GivesRun, GivesContent};

    /// Where the bytes of an unreleased view start and end, if its items lie one after the other.
    fn run_of(&self, view: usize) -> Option<(usize, usize)>
        requires whole { IsWhole self.now }
        requires live { is_live (exporter_of self.now) view ≡ true }
        ensures { GivesRun self.now view result }
    {
        let Ok(layout) = self.live_layout(view) else {
            return None;
        };
        if !layout.is_contiguous() {
            return None;
        }
        // Only the prover asks for the length. The items lie inside, so the bound of the length also bounds the place
        // where they end.
        let _room = self.bytes.len();
        let start = first_place(layout);
        Some((start, start + layout.nbytes()))
    }

    /// Where they start and end.
    fn run_between(&self, view: usize) -> (usize, usize)
        requires whole { IsWhole self.now }
        requires live { is_live (exporter_of self.now) view ≡ true }
        requires contiguous { is_contiguous_layout (layout_of (exporter_of self.now) view) ≡ true }
        ensures { IsRunOf self.now.bytes.items (layout_of (exporter_of self.now) view) result.0 result.1 }
    {
        match self.run_of(view) {
            Some(run) => run,
            None => (0, 0),
        }
    }

    /// Whether the items of an unreleased view lie one after the other and may be written.
    /// Example: of a view of all bytes of a bytearray it is true, and of one of `bytes` false.
    pub fn is_writable_run(&self, view: usize) -> bool
        requires whole { IsWhole self.now }
        requires live { is_live (exporter_of self.now) view ≡ true }
        ensures { result ≡ is_writable_run (layout_of (exporter_of self.now) view) }
    {
        match self.live_layout(view) {
            Ok(layout) => layout.is_contiguous() && !layout.is_readonly(),
            Err(_) => false,
        }
    }

    /// The bytes of an unreleased view, lent without a copy. It is None exactly where its items don't lie one after
    /// the other.
    /// Example: of a view of all bytes of `b"abc"` it is `Some(b"abc")`, and of its slice `::2` None.
    pub fn contiguous_bytes(&self, view: usize) -> Option<&[u8]>
        requires whole { IsWhole self.now }
        requires live { is_live (exporter_of self.now) view ≡ true }
        ensures { GivesContent self.now view result }
    {
        let (start, end) = self.run_of(view)?;
        Some(&self.bytes.as_slice()[start..end])
    }

    /// The bytes of an unreleased view whose items lie one after the other, lent to be written.
    /// Example: of a view `1:3` of `b"abcd"` it lends `b"bc"`.
    pub fn contiguous_bytes_mut(&mut self, view: usize) -> &mut [u8]
        requires whole { IsWhole self.old }
        requires live { is_live (exporter_of self.old) view ≡ true }
        requires contiguous { is_contiguous_layout (layout_of (exporter_of self.old) view) ≡ true }
        ensures* writes_back { sem 𝓛 (LendsRun self.entry view result) }
        ensures value { result.now ≡ content_of_layout self.old.bytes.items (layout_of (exporter_of self.old) view) }
    {
        let (start, end) = self.run_between(view);
        self.bytes.run_mut(start, end)
    }
}
