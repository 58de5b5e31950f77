//! The bytes of a subject of an exporter, borrowed to be written.
ghost use Rattle.std.specs.Prelude.{◌≡◌, ◌==◌, ℕ, List, true, length, IfOk, IfErr};
ghost use Rattle.std.specs.Fn.{FnOnceReturnsAtMut};
ghost use Rattle.pybuf_borrow.specs.Writable.{is_writable, lent_bytes, stored_through, RefusedAsAsked};

use pybuf_command::Subject;
use pybuf_exporter::ExporterState;
use pybuf_value::Fault;

/// The bytes of an exporter, or of one of its views, borrowed to be written where they lie. Python's documents call
/// that a writable bytes-like object (Glossary, "bytes-like object"; C API, "Parsing arguments", `w*`). It holds the
/// exporter until it ends. What is written through it takes the place of the bytes that it lends, and nothing else of
/// the exporter changes.
/// Example: of the subject `Subject::Own` of `bytearray(b"abc")` it lends three bytes to be written.
#[derive(Drop)]
pub struct ArgMemoryBuffer<'a> {
    state: &'a mut ExporterState,
    subject: Subject,
    ghost writable: { is_writable state.now.exporter subject ≡ true },
}

/// Whether the bytes of a subject may be written where they lie.
fn asked_to_write(state: &ExporterState, subject: Subject) -> Result<(), Fault>
    ensures ok { IfOk result (λ _. is_writable state.now.exporter subject ≡ true) }
    ensures exact { RefusedAsAsked state.now.exporter subject result }
{
    match subject {
        Subject::Own => {
            if state.kind().is_readonly() {
                return Err(Fault::Kind);
            }
            Ok(())
        }
        Subject::View(view) => {
            if view >= state.view_count() {
                return Err(Fault::UnknownName);
            }
            if !state.is_live(view) {
                return Err(Fault::Value);
            }
            if !state.is_writable_run(view) {
                return Err(Fault::Kind);
            }
            Ok(())
        }
        Subject::Iter(iterator) => {
            if iterator < state.iter_count() {
                return Err(Fault::Kind);
            }
            Err(Fault::UnknownName)
        }
    }
}

impl<'a> ArgMemoryBuffer<'a> {
    ghost use Rattle.std.specs.Borrow.{sem};
    ghost use Rattle.pybuf_borrow.specs.Holding.{StaysIfRefused, LendsWritable, after_writes};

    fn of_subject(state: &'a mut ExporterState, subject: Subject) -> ArgMemoryBuffer<'a>
        requires { is_writable state.old.exporter subject ≡ true }
        ensures same_reference { result.state.ghost_name ≡ state.entry.ghost_name }
        ensures state { result.state.now ≡ state.old }
        ensures subject { result.subject ≡ subject }
    {
        ArgMemoryBuffer { state, subject }
    }

    /// The bytes of a subject, borrowed to be written: all bytes of an exporter, or those of a view whose items lie
    /// one after the other.
    ///
    /// Refused with `UnknownName` exactly where the subject was never given, then with `ValueError` exactly for a
    /// released view, and then with `TypeError` exactly where the items don't lie one after the other, or may only be
    /// read. Nothing is changed then. Takes no memory.
    /// Example: of `Subject::View(1)` of an exporter with one view it is `Err(Fault::UnknownName)`.
    pub fn try_from_subject(
        state: &'a mut ExporterState,
        subject: Subject,
    ) -> Result<ArgMemoryBuffer<'a>, Fault>
        ensures* refused { sem 𝓛 (StaysIfRefused state.entry result) }
        ensures same_reference { IfOk result (λ borrow. borrow.state.ghost_name ≡ state.entry.ghost_name) }
        ensures state { IfOk result (λ borrow. borrow.state.now ≡ state.old) }
        ensures subject { IfOk result (λ borrow. borrow.subject ≡ subject) }
        ensures exact { RefusedAsAsked state.old.exporter subject result }
    {
        asked_to_write(state, subject)?;
        Ok(ArgMemoryBuffer::of_subject(state, subject))
    }

    /// The bytes, lent to be written. What is written there takes the place of the bytes of the subject, and of no
    /// others. Takes no memory.
    /// Example: after `argument.borrow_buf_mut()[0] = b'A'` what was `b"abc"` is `b"Abc"`.
    pub fn borrow_buf_mut(&mut self) -> &mut [u8]
        ensures* writes_back { sem 𝓛 (LendsWritable self.entry result) }
        ensures value { result.now ≡ lent_bytes self.old.state.now.exporter self.old.subject }
    {
        match self.subject {
            Subject::Own => self.state.bytes_mut(),
            Subject::View(view) => self.state.contiguous_bytes_mut(view),
            Subject::Iter(_) => unreachable!(),
        }
    }

    /// What a function makes of the bytes, which it may write.
    /// Example: with the function `|bytes| bytes.reverse()` what was `b"abc"` is `b"cba"`.
    pub fn with_ref<R, F: FnOnce(&mut [u8]) -> R>(&mut self, f: F) -> R
        requires { F.IsAlwaysCallable f }
        ensures { (last : List ℕ) × FnOnceReturnsAtMut F.FnOnce f (lent_bytes self.old.state.now.exporter self.old.subject) result last × (self.new ≡ after_writes self.old last) }
    {
        f(self.borrow_buf_mut())
    }

    /// The number of bytes that are lent. Takes no memory.
    /// Example: of a view `1:4` of `b"abcdef"` it is 3.
    pub fn len(&self) -> usize
        ensures { result ≡ length (lent_bytes self.now.state.now.exporter self.now.subject) }
    {
        match self.subject {
            Subject::Own => self.state.bytes().len(),
            Subject::View(view) => match self.state.contiguous_bytes(view) {
                Some(bytes) => bytes.len(),
                None => unreachable!(),
            },
            Subject::Iter(_) => unreachable!(),
        }
    }

    /// Whether no byte is lent. Takes no memory.
    /// Example: of a view `1:4` of `b"abcdef"` it is false.
    pub fn is_empty(&self) -> bool
        ensures { result ≡ (length (lent_bytes self.now.state.now.exporter self.now.subject) == 0) }
    {
        self.len() == 0
    }
}

/// What a function makes of the bytes of a subject, which are borrowed for the call and may be written.
///
/// Refused as `ArgMemoryBuffer::try_from_subject` refuses the subject. The function isn't called then, and nothing is
/// changed.
/// Example: of a view `1:4` of `b"abcdef"` and the function `|bytes| bytes.reverse()` the bytes are `b"adcbef"` then.
pub fn try_rw_bytes_like<R, F: FnOnce(&mut [u8]) -> R>(
    state: &mut ExporterState,
    subject: Subject,
    f: F,
) -> Result<R, Fault>
    requires { F.IsAlwaysCallable f }
    ensures ok { IfOk result (λ made. (last : List ℕ) × FnOnceReturnsAtMut F.FnOnce f (lent_bytes state.old.exporter subject) made last × (state.new ≡ stored_through state.old subject last)) }
    ensures exact { RefusedAsAsked state.old.exporter subject result }
    ensures err { IfErr result (λ _. state.new ≡ state.old) }
{
    let mut borrow = ArgMemoryBuffer::try_from_subject(state, subject)?;
    Ok(borrow.with_ref(f))
}
