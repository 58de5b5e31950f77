//! Numbers in a bytearray, which refuses to grow while it is lent.
ghost use Rattle.std.specs.Prelude.{◌≡◌, ◌↔◌, ◌<◌, ◌≤◌, ◌++◌, [], ◌∷◌, true, false, length, set, slice_get, IfOk, IfErr, Some, OnOk, OnErr, MatchResult, Err};
ghost use Rattle.pybuf_value.specs.declared.halt.Halt.{Halt};
ghost use Rattle.pybuf_value.specs.declared.faults.Fault.{Fault};

use pybuf::{ExporterState, Fault, Halt, PyByteArray, PyMemoryView};
use std::alloc::Global;
use std::marker::Model;

/// Numbers from 0 to 65,535, as Python's `array('H')`: they lie one after the other in a bytearray, two bytes
/// each, the low one first. Memoryviews of them are lent, and while one is out no number is added.
///
/// A clause sees the numbers, and of each view that was ever lent whether it is still out.
#[derive(Debug, Drop)]
pub struct NumberArray(PyByteArray);

impl Model for NumberArray {
    ghost use Rattle.example_users.specs.Numbers.{Numbers, numbers_in, IsNumberArray};

    ghost Value = { Numbers };

    ghost view = { λ array. numbers_in array.0 };

    ghost invariant = { λ array. IsNumberArray array.0 };
}

impl NumberArray {
    ghost use Rattle.example_users.specs.Numbers.{no_numbers, numbers_in, IsLent, IsOut, IsNotWritten};

    /// No numbers, and nothing lent. Takes no memory.
    pub fn new(alloc: Global) -> NumberArray
        ensures { result ≡ no_numbers }
    {
        NumberArray(PyByteArray::new(alloc))
    }

    /// The exporter, from which the views that are lent are read.
    pub fn state(&self) -> &ExporterState
        ensures { numbers_in result.now.exporter ≡ self.now }
    {
        self.0.state()
    }

    /// The number of numbers.
    pub fn len(&self) -> usize
        ensures { result ≡ length self.now.numbers }
    {
        self.0.byte_count() / 2
    }

    /// Whether there is no number.
    pub fn is_empty(&self) -> bool
        ensures { result ≡ true ↔ (self.now.numbers ≡ []) }
    {
        self.len() == 0
    }

    /// The number at an index; None exactly where there is none.
    pub fn get(&self, index: usize) -> Option<u16>
        ensures { result ≡ slice_get self.now.numbers index }
    {
        let (pairs, _) = self.0.as_slice().as_chunks::<2>();
        Some(u16::from_le_bytes(*pairs.get(index)?))
    }

    /// Puts a number in place of that at an index. This is done also while views are out: they show it.
    ///
    /// Refused with `IndexError` exactly where there is none at the index.
    pub fn set(&mut self, index: usize, number: u16) -> Result<(), Fault>
        ensures ok { OnOk result (self.new ≡ record self.old { numbers = set self.old.numbers index number }) }
        ensures exact { MatchResult result (λ _. index < length self.old.numbers) (λ fault. (fault ≡ Fault.Index) × (length self.old.numbers ≤ index)) }
        ensures err { OnErr result (self.new ≡ self.old) }
    {
        if index >= self.len() {
            return Err(Fault::Index);
        }
        self.0.borrow_buf_mut()[2 * index..2 * index + 2].copy_from_slice(&number.to_le_bytes());
        Ok(())
    }

    /// Adds a number at the end.
    ///
    /// Refused with `BufferError` exactly where a view is out. Where it is refused, or memory runs out, nothing
    /// is changed.
    pub fn push(&mut self, number: u16) -> Result<(), Halt>
        ensures ok { OnOk result (self.new ≡ record self.old { numbers = self.old.numbers ++ number ∷ [] }) }
        ensures lent { (result ≡ Err (Halt.Refused Fault.Buffer)) ↔ IsLent self.old }
        ensures err { OnErr result (self.new ≡ self.old) }
    {
        self.0.extend_from_slice(&number.to_le_bytes())
    }

    /// A memoryview of all the numbers' bytes. It is out until it is given back. Never refused: where memory runs
    /// out, nothing is changed.
    pub fn lend(&mut self) -> Result<PyMemoryView, Halt>
        ensures view { IfOk result (λ view. view ≡ length self.old.out) }
        ensures ok { OnOk result (self.new ≡ record self.old { out = self.old.out ++ true ∷ [] }) }
        ensures err { OnErr result (self.new ≡ self.old) }
        ensures memory { IfErr result (λ halt. halt ≡ Halt.NoMemory) }
    {
        PyMemoryView::of_all(self.0.state_mut())
    }

    /// Puts a number in place of that at an index, through a view that is out: `get` gives it then, and every other
    /// number stays.
    ///
    /// Refused with `UnknownName` exactly where the view was never lent, with `ValueError` exactly where it was given
    /// back, and with `IndexError` exactly where it is out and there is no number at the index. Where it is refused,
    /// nothing is changed. Takes no memory.
    /// Example: of the numbers 1 and 2, of which view 0 is out, `set_through(&view, 1, 7)` leaves 1 and 7.
    pub fn set_through(
        &mut self,
        view: &PyMemoryView,
        index: usize,
        number: u16,
    ) -> Result<(), Fault>
        ensures ok { OnOk result (self.new ≡ record self.old { numbers = set self.old.numbers index number }) }
        ensures got { OnOk result (slice_get self.new.numbers index ≡ Some number) }
        ensures exact { MatchResult result (λ _. IsOut self.old view.now × (index < length self.old.numbers)) (λ fault. IsNotWritten self.old view.now index fault) }
        ensures err { OnErr result (self.new ≡ self.old) }
    {
        let view = view.number();
        let state = self.0.state();
        if view >= state.view_count() {
            return Err(Fault::UnknownName);
        }
        if !state.is_live(view) {
            return Err(Fault::Value);
        }
        if index >= self.len() {
            return Err(Fault::Index);
        }
        let bytes = self.0.state_mut().contiguous_bytes_mut(view);
        bytes[2 * index..2 * index + 2].copy_from_slice(&number.to_le_bytes());
        Ok(())
    }

    /// Takes a view back. One that was taken back before changes nothing. Takes no memory.
    pub fn give_back(&mut self, view: PyMemoryView)
        ensures { self.new ≡ record self.old { out = set self.old.out view false } }
    {
        let _ = self.0.state_mut().release_view(view.number());
    }
}
