//! Python's `bytes`, as a value of its own.
ghost use Rattle.std.specs.Prelude.{◌≡◌, ◌==◌, length, OnErr};
ghost use Rattle.std.specs.Borrow.{sem};
ghost use Rattle.pybuf_state.specs.Fits.{LoansFit};
ghost use Rattle.pybuf_command.specs.declared.kinds.ExporterKind.TheVariants as kinds;
ghost use Rattle.pybuf_command.specs.declared.kinds.Subject.TheVariants as subjects;
ghost use Rattle.pybuf_command.specs.declared.commands.PropertyName.TheVariants as names;
ghost use Rattle.pybuf_command.specs.declared.commands.Verb.TheVariants as verbs;
ghost use Rattle.pybuf_state.specs.Exporter.{new_exporter};
ghost use Rattle.pybuf_exporter.specs.Stepping.{StepsBy};

use pybuf_buffer::step_of;
use pybuf_command::{ExporterKind, LoanList, LocalReply, MethodCall, PropertyName, Subject, Verb};
use pybuf_exporter::ExporterState;
use pybuf_value::{ByteList, CompareOp, Made, Value};
use std::alloc::Global;
use std::marker::Model;

/// Python's `bytes`: a sequence of bytes that never change (Library reference, "Bytes Objects"). It owns
/// its exporter, which is what a clause sees, and keeps the views that are made of it.
///
/// A method that takes loans is one command on the exporter, and answers its reply. What is refused is
/// replied as `LocalReply::Refused`, and changes nothing; before all that a method names, a handle among the
/// values that the loans don't name is refused with `UnknownName`. Where memory runs out, nothing is changed.
/// The loans have to fit, as `FitLoans::fit` tells.
/// Example: `PyBytes::new_ref(alloc, bytes)` of a vector of the bytes 97 and 98 stands for Python's `b"ab"`.
#[derive(Debug, Drop)]
pub struct PyBytes {
    pub(crate) exporter: ExporterState,
}

impl Model for PyBytes {
    ghost use Rattle.pybuf_state.specs.Exporter.{Exporter};

    ghost Value = { Exporter };

    ghost view = { λ b. b.exporter.exporter };
}

impl PyBytes {
    ghost use Rattle.pybuf_object.specs.Lending.{LendsStateOfBytes};

    /// The `bytes` of these bytes, and no view of it. Takes no memory.
    /// Example: of a vector of the bytes 97 and 98 it is `b"ab"`.
    pub fn new_ref(alloc: Global, bytes: Vec<u8>) -> PyBytes
        ensures { result ≡ new_exporter kinds.Bytes bytes.items }
    {
        let bytes = ByteList::from_vec(bytes);
        PyBytes {
            exporter: ExporterState::new(alloc, ExporterKind::Bytes, bytes),
        }
    }

    /// Its exporter, lent to be read. Takes no memory.
    /// Example: `object.state().kind()` is `ExporterKind::Bytes`.
    pub fn state(&self) -> &ExporterState
        ensures { result.now.exporter ≡ self.now }
    {
        &self.exporter
    }

    /// Its exporter, lent to be changed: through it views are made and released. Takes no memory. Another exporter
    /// can be put in through it, of any kind.
    /// Example: `PyMemoryView::of_all(object.state_mut())?` is a view of all bytes of `object`.
    pub fn state_mut(&mut self) -> &mut ExporterState
        ensures* writes_back { sem 𝓛 (LendsStateOfBytes self.entry result) }
        ensures value { result.now.exporter ≡ self.old }
    {
        &mut self.exporter
    }

    /// The number of bytes, as Python's `len(bytes)` (Library reference, "Common Sequence Operations").
    /// Takes no memory.
    /// Example: of `b"it's"` it is 4.
    pub fn len(&self) -> usize
        ensures { result ≡ length self.now.bytes }
    {
        self.exporter.bytes().len()
    }

    /// Whether there is no byte. It is true exactly where Python's `bool(bytes)` is false (Library reference, "Truth
    /// Value Testing"). Takes no memory.
    /// Example: of `b""` it is true, and of `b"\x00"` false.
    pub fn is_empty(&self) -> bool
        ensures { result ≡ (length self.now.bytes == 0) }
    {
        self.exporter.bytes().is_empty()
    }

    /// The bytes, lent without a copy. Takes no memory.
    /// Example: of `b"abc"` it is `b"abc"`.
    pub fn as_bytes(&self) -> &[u8]
        ensures { result.now ≡ self.now.bytes }
    {
        self.exporter.bytes()
    }

    /// A memoryview of all bytes, as Python's `memoryview(object)` (Library reference, "Memory Views"): the reply is
    /// the number of one more view. Its items have one byte each, in one dimension, and may only be read.
    /// Example: of new bytes it replies `View(0)`, and a second time `View(1)`.
    pub fn as_buffer(&mut self, loans: LoanList) -> Made<LocalReply>
        requires { LoansFit loans }
        ensures ok { StepsBy subjects.Own verbs.View loans self.old result self.new }
        ensures err { OnErr result (self.new ≡ self.old) }
    {
        self.exporter.view_of_own(&loans)
    }

    /// A view of the bytes from the place `from` up to `to`, as `memoryview(object)[from:to]` where both places are
    /// there (Library reference, "Memory Views"). The reply is its number.
    ///
    /// Refused with `TypeError` where `from`, and then `to`, is no number, and with `IndexError` where `from` is
    /// below 0 or past `to`, or `to` is past the length.
    /// Example: of `b"abcdef"` from 1 up to 4 it replies the number of a view of `b"bcd"`.
    pub fn range(&mut self, from: Value, to: Value, loans: LoanList) -> Made<LocalReply>
        requires { LoansFit loans }
        ensures ok { StepsBy subjects.Own (verbs.Range from to) loans self.old result self.new }
        ensures err { OnErr result (self.new ≡ self.old) }
    {
        step_of(
            &mut self.exporter,
            Subject::Own,
            Verb::Range { from, to },
            loans,
        )
    }

    /// The byte at an index, as a number, or the bytes that a slice picks, as Python's `bytes[key]`
    /// (Library reference, "Common Sequence Operations"). A negative index counts from the end.
    ///
    /// Refused with `TypeError` where the key is neither a number nor a slice, and where a part of the
    /// slice is neither a number nor `None`; with `ValueError` for a step of 0; with `IndexError` for
    /// an index out of range.
    /// Example: of `b"it's"` the key `-1` gets the item 115, and the key `1:3` gets `b"t'"`.
    pub fn getitem(&mut self, key: Value, loans: LoanList) -> Made<LocalReply>
        requires { LoansFit loans }
        ensures ok { StepsBy subjects.Own (verbs.Get key) loans self.old result self.new }
        ensures err { OnErr result (self.new ≡ self.old) }
    {
        self.exporter.get_of_own(&key, &loans)
    }

    /// A copy of the bytes, as Python's `bytes(object)` (Library reference, "Bytes Objects").
    /// Example: of `b"abc"` it replies the bytes `b"abc"`.
    pub fn tobytes(&mut self, loans: LoanList) -> Made<LocalReply>
        requires { LoansFit loans }
        ensures ok { StepsBy subjects.Own (verbs.ToBytes None) loans self.old result self.new }
        ensures err { OnErr result (self.new ≡ self.old) }
    {
        step_of(
            &mut self.exporter,
            Subject::Own,
            Verb::ToBytes { order: None },
            loans,
        )
    }

    /// Compares the bytes with another value by an operator, as Python's `bytes == other`, `bytes < other` and so on
    /// (Language reference, "Value comparisons"). They are compared byte by byte with bytes, an exporter, or an
    /// unreleased view whose items lie one after the other. For any other value the reply is `NotImplementedReply`,
    /// as Python's `NotImplemented`.
    ///
    /// Refused with `TypeError` for an order with a view.
    /// Example: `b"it's"` with `CompareOp::Lt` and `b"its"` replies `Truth(true)`.
    pub fn cmp(&mut self, op: CompareOp, other: Value, loans: LoanList) -> Made<LocalReply>
        requires { LoansFit loans }
        ensures ok { StepsBy subjects.Own (verbs.Compare op other) loans self.old result self.new }
        ensures err { OnErr result (self.new ≡ self.old) }
    {
        step_of(
            &mut self.exporter,
            Subject::Own,
            Verb::Compare { op, other },
            loans,
        )
    }

    /// The bytes that are fed to a hasher, as in Python's `hash(bytes)` (Library reference, "Built-in Functions").
    /// They are all bytes.
    /// Example: of `b"it's"` it replies the bytes `b"it's"`.
    pub fn hash(&mut self, loans: LoanList) -> Made<LocalReply>
        requires { LoansFit loans }
        ensures ok { StepsBy subjects.Own verbs.Hash loans self.old result self.new }
        ensures err { OnErr result (self.new ≡ self.old) }
    {
        step_of(&mut self.exporter, Subject::Own, Verb::Hash, loans)
    }

    /// The text that shows the bytes, as Python's `repr(bytes)` (Library reference, "Bytes Objects").
    ///
    /// Refused with `OverflowError` where the text has more than `isize::MAX` bytes.
    /// Example: of `b"it's"` it replies the text `b"it's"`, and of `b"a\x00"` the text `b'a\x00'`.
    pub fn repr_str(&mut self, loans: LoanList) -> Made<LocalReply>
        requires { LoansFit loans }
        ensures ok { StepsBy subjects.Own verbs.Repr loans self.old result self.new }
        ensures err { OnErr result (self.new ≡ self.old) }
    {
        step_of(&mut self.exporter, Subject::Own, Verb::Repr, loans)
    }

    /// Whether a value stands in the bytes, as Python's `value in bytes` (Library reference, "Common Sequence
    /// Operations"). A number is one byte, and any other value is read as bytes. Refused with `ValueError` for a
    /// number outside `0..256`, and as `bytes_from_object` refuses any other value.
    /// Example: in `b"Abc"` the value `b"bc"` replies `Truth(true)`.
    pub fn contains(&mut self, value: Value, loans: LoanList) -> Made<LocalReply>
        requires { LoansFit loans }
        ensures ok { StepsBy subjects.Own (verbs.Contains value) loans self.old result self.new }
        ensures err { OnErr result (self.new ≡ self.old) }
    {
        step_of(
            &mut self.exporter,
            Subject::Own,
            Verb::Contains { value },
            loans,
        )
    }

    /// Calls a method by its name, as Python's `bytes.find(value)` and the others (Library reference, "Bytes and
    /// Bytearray Operations"). Refused with `TypeError` for a wrong number of arguments, then as the first argument
    /// from left to right that is refused, and then by the method's own rule.
    /// Example: on `b"a,b,c"` the method `MethodName::RemovePrefix` with `b"a,"` replies the bytes `b"b,c"`.
    pub fn call(&mut self, method: MethodCall, loans: LoanList) -> Made<LocalReply>
        requires { LoansFit loans }
        ensures ok { StepsBy subjects.Own (verbs.Call method) loans self.old result self.new }
        ensures err { OnErr result (self.new ≡ self.old) }
    {
        step_of(
            &mut self.exporter,
            Subject::Own,
            Verb::Call { method },
            loans,
        )
    }

    /// A new iterator over the bytes from the first on, as Python's `iter(bytes)` (Library reference,
    /// "Built-in Functions", `iter`): the reply is its number.
    /// Example: of new bytes it replies `Iter(0)`, which `PyBytesIterator::of(0)` names.
    pub fn iter(&mut self, loans: LoanList) -> Made<LocalReply>
        requires { LoansFit loans }
        ensures ok { StepsBy subjects.Own verbs.Iter loans self.old result self.new }
        ensures err { OnErr result (self.new ≡ self.old) }
    {
        step_of(&mut self.exporter, Subject::Own, Verb::Iter, loans)
    }

    /// How many views of it are unreleased. Python keeps this number and doesn't show it: while it
    /// isn't 0, nothing is resized (C API, "Buffer Protocol").
    /// Example: it replies the item 1 after one `as_buffer`, and 0 again once that view is released.
    pub fn exports(&mut self, loans: LoanList) -> Made<LocalReply>
        requires { LoansFit loans }
        ensures ok { StepsBy subjects.Own (verbs.Property names.Exports) loans self.old result self.new }
        ensures err { OnErr result (self.new ≡ self.old) }
    {
        step_of(
            &mut self.exporter,
            Subject::Own,
            Verb::Property {
                name: PropertyName::Exports,
            },
            loans,
        )
    }
}
