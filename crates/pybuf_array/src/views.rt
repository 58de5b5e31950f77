//! Views of an array.
ghost use Rattle.std.specs.Prelude.{◌≡◌, ◌<◌, ◌^◌, false, length, slice_get, Ok, Err, IfOk, IfErr, OnOk, OnErr, MatchResult};
ghost use Rattle.pybuf_value.specs.declared.halt.Halt.TheVariants as halts;
ghost use Rattle.pybuf_numbers.specs.Walks.{indices_of, LiesBelow};
ghost use Rattle.pybuf_array.specs.Array as spec;
ghost use Rattle.pybuf_array.specs.Parts.{IsInside};
ghost use Rattle.pybuf_array.specs.Operations.{Settles, SettlesAtOnce};

use crate::array::PyArray;
use crate::numbers::entry_named;
use pybuf_index::SaturatedSlice;
use pybuf_numbers::IndexRun;
use pybuf_value::{Fault, Halt, PySlice, push_reserved};

/// The run of a number; None exactly where there is none.
fn run_at(runs: &[IndexRun], view: usize) -> Option<IndexRun>
    ensures { result ≡ slice_get runs.now view }
{
    match runs.get(view) {
        Some(run) => Some(*run),
        None => None,
    }
}

impl PyArray {
    /// One more view, of these indices. The answer is its number.
    fn add(&mut self, run: IndexRun) -> Result<usize, Halt>
        requires { IsInside (length self.old.numbers) run }
        ensures number { IfOk result (λ view. view ≡ length self.old.views) }
        ensures array { OnOk result (self.new ≡ spec.with_view self.old (indices_of run)) }
        ensures memory { IfErr result (λ halt. halt ≡ halts.NoMemory) }
        ensures err { OnErr result (self.new ≡ self.old) }
    {
        self.runs.reserve(1)?;
        let view = self.bytes.state_mut().add_whole()?;
        push_reserved(&mut self.runs, run);
        Ok(view)
    }

    /// A view of all numbers, as Python's `memoryview(array)`. The answer is its number. While it is unreleased, no
    /// number is added or taken out.
    ///
    /// This is never refused. Where memory runs out, nothing is changed.
    /// Example: of a new array it is 0.
    pub fn view(&mut self) -> Result<usize, Halt>
        ensures { Settles (Ok (spec.viewed self.old)) self.old result self.new }
    {
        let run = IndexRun::all(self.len());
        self.add(run)
    }

    /// The indices of a view.
    ///
    /// Refused with `UnknownName` where it was never given, and with `ValueError` where it was released.
    fn live_run(&self, view: usize) -> Result<IndexRun, Fault>
        ensures view { MatchResult result (λ run. spec.live_view self.now view ≡ Ok (record { indices = indices_of run; released = false })) (λ fault. spec.live_view self.now view ≡ Err fault) }
        ensures inside { IfOk result (λ run. IsInside (length self.now.numbers) run) }
        ensures below { IfOk result (λ run. LiesBelow (2 ^ 63) run) }
        ensures few { length self.now.numbers < 2 ^ 63 }
    {
        let _count = self.len();
        match run_at(self.runs.as_slice(), view) {
            None => Err(Fault::UnknownName),
            Some(found) => {
                if self.bytes.state().is_live(view) {
                    Ok(found)
                } else {
                    Err(Fault::Value)
                }
            }
        }
    }

    /// A view of those numbers of a view that a slice picks, as Python's `view[slice]`. The answer is its number. It
    /// takes as long whatever the numbers are.
    ///
    /// Refused with `UnknownName` where the view was never given, with `ValueError` where it was released, and then
    /// as `SaturatedSlice::with_slice` refuses the slice. Where it is refused, or memory runs out, nothing is
    /// changed.
    /// Example: of a view of `array('h', [1, -2, 3])` the slice `PySlice::from(1..)` gives the number of a view of -2 and 3.
    pub fn vslice(&mut self, view: usize, slice: &PySlice) -> Result<usize, Halt>
        ensures { Settles (spec.view_sliced self.old view slice.now) self.old result self.new }
    {
        let run = self.live_run(view)?;
        let slice = SaturatedSlice::with_slice(slice)?;
        self.add(run.picked(&slice))
    }

    /// The place of the number that an index of a view names, where a negative one counts from the end.
    ///
    /// Refused with `UnknownName` where the view was never given, with `ValueError` where it was released, and with
    /// `IndexError` where there is none.
    fn place_in_view(&self, view: usize, index: i128) -> Result<usize, Fault>
        ensures place { spec.GivesOrRefuses (spec.place_in_view self.now view index) result }
        ensures there { IfOk result (λ place. place < length self.now.numbers) }
    {
        let run = self.live_run(view)?;
        let item = entry_named(run.len(), index)?;
        Ok(run.at(item))
    }

    /// The number at an index of a view, as Python's `view[index]`. Takes no memory.
    ///
    /// Refused with `UnknownName` where the view was never given, with `ValueError` where it was released, and with
    /// `IndexError` out of range.
    /// Example: of a view of `array('h', [1, -2])` the index -1 gives `Ok(-2)`.
    pub fn vget(&self, view: usize, index: i128) -> Result<i128, Fault>
        ensures { result ≡ spec.number_in_view self.now view index }
    {
        let place = self.place_in_view(view, index)?;
        Ok(self.at(place))
    }

    /// Puts a number in place of the one at an index of a view, as Python's `view[index] = value`. Takes no memory.
    ///
    /// Refused as `vget` refuses it, and then with `OverflowError` where the number is out of the code's range.
    /// Nothing is changed then.
    /// Example: through the view `1:` of `array('h', [1, -2, 3])` the index 0 and the number 20 make `array('h', [1, 20, 3])`.
    pub fn vset(&mut self, view: usize, index: i128, value: i128) -> Result<(), Fault>
        ensures { SettlesAtOnce (spec.put_in_view self.old view index value) self.old result self.new }
    {
        let place = self.place_in_view(view, index)?;
        self.check_range(value)?;
        self.put(place, value);
        Ok(())
    }

    /// Releases a view, as Python's `view.release()`. One that was released before stays so. Takes no memory.
    ///
    /// Refused with `UnknownName` exactly where it was never given. Nothing is changed then.
    /// Example: `array.release(0)` is `Ok(())` after one `view`, and `Err(Fault::UnknownName)` before.
    pub fn release(&mut self, view: usize) -> Result<(), Fault>
        ensures { SettlesAtOnce (spec.released_in self.old view) self.old result self.new }
    {
        self.bytes.state_mut().release_view(view)
    }
}
