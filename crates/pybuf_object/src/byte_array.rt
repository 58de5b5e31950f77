//! Python's `bytearray`, as a value of its own.
ghost use Rattle.std.specs.Prelude.{◌≡◌, ◌↔◌, IfOk, IfSome, IfErr, IsOk, IsSome, OnErr};
ghost use Rattle.std.specs.Borrow.{sem};
ghost use Rattle.pybuf_state.specs.Fits.{LoansFit};
ghost use Rattle.pybuf_command.specs.declared.kinds.ExporterKind.TheVariants as kinds;
ghost use Rattle.pybuf_command.specs.declared.kinds.Subject.TheVariants as subjects;
ghost use Rattle.pybuf_command.specs.declared.commands.PropertyName.TheVariants as names;
ghost use Rattle.pybuf_command.specs.declared.commands.Verb.TheVariants as verbs;
ghost use Rattle.pybuf_value.specs.declared.faults.Fault.{Fault};
ghost use Rattle.pybuf_state.specs.Exporter.{new_exporter, exports_of};
ghost use Rattle.pybuf_exporter.specs.Stepping.{StepsBy};

use crate::guard::BufferResizeGuard;
use pybuf_buffer::step_of;
use pybuf_command::{
    ByteInnerNewOptions, ExporterKind, LoanList, LocalReply, MethodCall, PropertyName, Subject,
    Verb,
};
use pybuf_exporter::ExporterState;
use pybuf_value::{ByteList, CompareOp, Fault, Made, Value};
use std::alloc::Global;
use std::marker::Model;

/// Python's `bytearray`: a sequence of bytes that are written, and whose number changes while no view of it
/// is unreleased (Library reference, "Bytearray Objects"). It owns its exporter, which is what a clause sees,
/// and keeps the views that are made of it.
///
/// A method that takes loans is one command on the exporter, and answers its reply. What is refused is
/// replied as `LocalReply::Refused`, and changes nothing; before all that a method names, a handle among the
/// values that the loans don't name is refused with `UnknownName`. Where memory runs out, nothing is changed.
/// The loans have to fit, as `FitLoans::fit` tells.
/// Example: `PyByteArray::from_slice(alloc, b"abc")?` stands for Python's `bytearray(b"abc")`.
#[derive(Debug, Drop)]
pub struct PyByteArray {
    pub(crate) exporter: ExporterState,
}

impl Model for PyByteArray {
    ghost use Rattle.pybuf_state.specs.Exporter.{Exporter};

    ghost Value = { Exporter };

    ghost view = { λ b. b.exporter.exporter };
}

impl PyByteArray {
    ghost use Rattle.pybuf_object.specs.Lending.{LendsStateOfByteArray, LendsBytesOfByteArray, LendsAllIfOk, LendsAllIfSome};

    /// The `bytearray` of these bytes, and no view of it. Takes no memory.
    /// Example: of a vector of the bytes 97 and 98 it is `bytearray(b"ab")`.
    pub fn new_ref(alloc: Global, bytes: Vec<u8>) -> PyByteArray
        ensures { result ≡ new_exporter kinds.ByteArray bytes.items }
    {
        let bytes = ByteList::from_vec(bytes);
        PyByteArray {
            exporter: ExporterState::new(alloc, ExporterKind::ByteArray, bytes),
        }
    }

    /// Its exporter, lent to be read. Takes no memory.
    /// Example: `array.state().bytes()` of `bytearray(b"abc")` is `b"abc"`.
    pub fn state(&self) -> &ExporterState
        ensures { result.now.exporter ≡ self.now }
    {
        &self.exporter
    }

    /// Its exporter, lent to be changed: through it views are made and released. Takes no memory. Another exporter
    /// can be put in through it, of any kind; so the calls that lend its bytes to be changed have the condition that
    /// it is a bytearray, and edits of another kind are refused with `UnknownName`.
    /// Example: `PyMemoryView::of_all(array.state_mut())?` is a view of all bytes of `array`.
    pub fn state_mut(&mut self) -> &mut ExporterState
        ensures* writes_back { sem 𝓛 (LendsStateOfByteArray self.entry result) }
        ensures value { result.now.exporter ≡ self.old }
    {
        &mut self.exporter
    }

    /// The bytes, lent without a copy. Takes no memory.
    /// Example: of `bytearray(b"abc")` it is `b"abc"`.
    pub fn borrow_buf(&self) -> &[u8]
        ensures { result.now ≡ self.now.bytes }
    {
        self.exporter.bytes()
    }

    /// The bytes, lent to be written. Their number and all else of the bytearray stay. Takes no memory. All views of
    /// it see the writes.
    /// Example: after `array.borrow_buf_mut()[0] = b'A'` what was `bytearray(b"abc")` is `bytearray(b"Abc")`.
    pub fn borrow_buf_mut(&mut self) -> &mut [u8]
        requires { self.old.kind ≡ kinds.ByteArray }
        ensures* writes_back { sem 𝓛 (LendsBytesOfByteArray self.entry result) }
        ensures value { result.now ≡ self.old.bytes }
    {
        self.exporter.bytes_mut()
    }

    /// The bytes, lent to be changed in any way, in number too. Views and iterators stay. Takes no memory.
    ///
    /// Refused with `BufferError` exactly where a view is unreleased, as Python refuses to resize a bytearray then (C
    /// API, "Buffer Protocol"). Nothing is changed then.
    /// Example: after `array.try_resizable()?.push(b'\n')?` what was `bytearray(b"ab")` is `bytearray(b"ab\n")`.
    pub fn try_resizable(&mut self) -> Result<&mut Vec<u8>, Fault>
        requires { self.old.kind ≡ kinds.ByteArray }
        ensures* writes_back { sem 𝓛 (LendsAllIfOk self.entry result) }
        ensures value { IfOk result (λ bytes. bytes.now.items ≡ self.old.bytes) }
        ensures refused { IfErr result (λ fault. fault ≡ Fault.Buffer) }
        ensures exact { IsOk result ↔ (exports_of self.old ≡ 0) }
    {
        self.exporter.resizable()
    }

    /// The bytes, lent as by `try_resizable`, for a caller that needs no `Fault`. It is None exactly where a view is
    /// unreleased, and nothing is changed then. Takes no memory.
    /// Example: `array.try_resizable_opt().is_none()` is true while a view of `array` is unreleased.
    pub fn try_resizable_opt(&mut self) -> Option<&mut Vec<u8>>
        requires { self.old.kind ≡ kinds.ByteArray }
        ensures* writes_back { sem 𝓛 (LendsAllIfSome self.entry result) }
        ensures value { IfSome result (λ bytes. bytes.now.items ≡ self.old.bytes) }
        ensures exact { IsSome result ↔ (exports_of self.old ≡ 0) }
    {
        match self.exporter.resizable() {
            Ok(bytes) => Some(bytes),
            Err(_) => None,
        }
    }

    /// A memoryview of all bytes, as Python's `memoryview(object)` (Library reference, "Memory Views"): the reply is
    /// the number of one more view. Its items have one byte each, in one dimension, and may be written. While it is
    /// unreleased, the length stays.
    /// Example: of a new bytearray it replies `View(0)`, and a second time `View(1)`.
    pub fn as_buffer(&mut self, loans: LoanList) -> Made<LocalReply>
        requires { LoansFit loans }
        ensures ok { StepsBy subjects.Own verbs.View loans self.old result self.new }
        ensures err { OnErr result (self.new ≡ self.old) }
    {
        self.exporter.view_of_own(&loans)
    }

    /// A view of the bytes from the place `from` up to `to`, as `memoryview(object)[from:to]` where both places are
    /// there (Library reference, "Memory Views"). The reply is its number.
    ///
    /// Refused with `TypeError` where `from`, and then `to`, is no number, and with `IndexError` where `from` is
    /// below 0 or past `to`, or `to` is past the length.
    /// Example: of `bytearray(b"abcdef")` from 1 up to 4 it replies the number of a view of `b"bcd"`.
    pub fn range(&mut self, from: Value, to: Value, loans: LoanList) -> Made<LocalReply>
        requires { LoansFit loans }
        ensures ok { StepsBy subjects.Own (verbs.Range from to) loans self.old result self.new }
        ensures err { OnErr result (self.new ≡ self.old) }
    {
        step_of(
            &mut self.exporter,
            Subject::Own,
            Verb::Range { from, to },
            loans,
        )
    }

    /// The byte at an index, as a number, or the bytes that a slice picks, as Python's `bytearray[key]`
    /// (Library reference, "Common Sequence Operations"). A negative index counts from the end.
    ///
    /// Refused with `TypeError` where the key is neither a number nor a slice, and where a part of the
    /// slice is neither a number nor `None`; with `ValueError` for a step of 0; with `IndexError` for
    /// an index out of range.
    /// Example: of `bytearray(b"abc")` the key `-1` gets the item 99, and the key `0:2` gets `b"ab"`.
    pub fn getitem(&mut self, key: Value, loans: LoanList) -> Made<LocalReply>
        requires { LoansFit loans }
        ensures ok { StepsBy subjects.Own (verbs.Get key) loans self.old result self.new }
        ensures err { OnErr result (self.new ≡ self.old) }
    {
        self.exporter.get_of_own(&key, &loans)
    }

    /// Writes the byte at an index, or puts bytes in place of those that a slice picks, as Python's
    /// `bytearray[key] = value` (Library reference, "Mutable Sequence Types").
    ///
    /// The key is refused as `getitem` refuses it. At an index, the value is refused with `TypeError`
    /// where it is no number, and with `ValueError` outside `0..256`, before an index out of range. For
    /// a slice, the value is refused as `bytes_from_object` refuses it; then with `BufferError` where a
    /// view is unreleased and the length would change; then with `ValueError` where the step isn't 1
    /// and the bytes are another number than the slice picks.
    /// Example: in `bytearray(b"abc")` the key `0:2` and the value `b"XYZ"` make `bytearray(b"XYZc")`.
    pub fn setitem(&mut self, key: Value, value: Value, loans: LoanList) -> Made<LocalReply>
        requires { LoansFit loans }
        ensures ok { StepsBy subjects.Own (verbs.Set key value) loans self.old result self.new }
        ensures err { OnErr result (self.new ≡ self.old) }
    {
        step_of(
            &mut self.exporter,
            Subject::Own,
            Verb::Set { key, value },
            loans,
        )
    }

    /// Takes out the byte at an index, or those that a slice picks, as Python's `del bytearray[key]` (Library
    /// reference, "Mutable Sequence Types").
    ///
    /// The key is refused as `getitem` refuses it, except that `BufferError`, where a view is unreleased, comes
    /// before the `IndexError` of an index that fits `isize`.
    /// Example: in `bytearray(b"XYZcd")` the key `-1` makes `bytearray(b"XYZc")`.
    pub fn delitem(&mut self, key: Value, loans: LoanList) -> Made<LocalReply>
        requires { LoansFit loans }
        ensures ok { StepsBy subjects.Own (verbs.Del key) loans self.old result self.new }
        ensures err { OnErr result (self.new ≡ self.old) }
    {
        step_of(&mut self.exporter, Subject::Own, Verb::Del { key }, loans)
    }

    /// A copy of the bytes, as Python's `bytes(object)` (Library reference, "Bytes Objects").
    /// Example: of `bytearray(b"abc")` it replies the bytes `b"abc"`.
    pub fn tobytes(&mut self, loans: LoanList) -> Made<LocalReply>
        requires { LoansFit loans }
        ensures ok { StepsBy subjects.Own (verbs.ToBytes None) loans self.old result self.new }
        ensures err { OnErr result (self.new ≡ self.old) }
    {
        step_of(
            &mut self.exporter,
            Subject::Own,
            Verb::ToBytes { order: None },
            loans,
        )
    }

    /// The number of bytes, as Python's `len(bytearray)` (Library reference, "Common Sequence
    /// Operations").
    /// Example: of `bytearray(b"abc")` it replies the item 3.
    pub fn len(&mut self, loans: LoanList) -> Made<LocalReply>
        requires { LoansFit loans }
        ensures ok { StepsBy subjects.Own verbs.Len loans self.old result self.new }
        ensures err { OnErr result (self.new ≡ self.old) }
    {
        step_of(&mut self.exporter, Subject::Own, Verb::Len, loans)
    }

    /// A new iterator over the bytes from the first on, as Python's `iter(bytearray)` (Library reference,
    /// "Built-in Functions", `iter`): the reply is its number. It goes over the bytes as they
    /// are at each step, also where they were edited since.
    /// Example: of a new bytearray it replies `Iter(0)`, which `PyByteArrayIterator::of(0)` names.
    pub fn iter(&mut self, loans: LoanList) -> Made<LocalReply>
        requires { LoansFit loans }
        ensures ok { StepsBy subjects.Own verbs.Iter loans self.old result self.new }
        ensures err { OnErr result (self.new ≡ self.old) }
    {
        step_of(&mut self.exporter, Subject::Own, Verb::Iter, loans)
    }

    /// How many views of it are unreleased. Python keeps this number and doesn't show it: while it
    /// isn't 0, nothing is resized (C API, "Buffer Protocol").
    /// Example: it replies the item 1 after one `as_buffer`, and 0 again once that view is released.
    pub fn exports(&mut self, loans: LoanList) -> Made<LocalReply>
        requires { LoansFit loans }
        ensures ok { StepsBy subjects.Own (verbs.Property names.Exports) loans self.old result self.new }
        ensures err { OnErr result (self.new ≡ self.old) }
    {
        step_of(
            &mut self.exporter,
            Subject::Own,
            Verb::Property {
                name: PropertyName::Exports,
            },
            loans,
        )
    }

    /// Adds a byte at the end, as Python's `bytearray.append(value)` (Library reference, "Mutable
    /// Sequence Types").
    ///
    /// Refused with `TypeError` where the value is no number, with `ValueError` outside `0..256`, and
    /// then with `BufferError` where a view is unreleased.
    /// Example: to `bytearray(b"abc")` the value 100 makes `bytearray(b"abcd")`, and 256 is refused with `ValueError`.
    // This is in line, since otherwise the values are moved here before they are dropped.
    #[inline(always)]
    pub fn append(&mut self, value: Value, loans: LoanList) -> Made<LocalReply>
        requires { LoansFit loans }
        ensures ok { StepsBy subjects.Own (verbs.Append value) loans self.old result self.new }
        ensures err { OnErr result (self.new ≡ self.old) }
    {
        self.exporter.append(&value, &loans)
    }

    /// Adds bytes at the end, as Python's `bytearray.extend(value)` (Library reference, "Mutable Sequence Types").
    /// One that is extended by itself is doubled.
    ///
    /// Refused as `bytes_from_object` refuses the value, and then with `BufferError` where a view is unreleased.
    /// Where it is extended by itself, an empty one stays as it is, and any other is refused with `BufferError` where
    /// a view is unreleased, and with `OverflowError` where twice the length passes `isize::MAX`.
    /// Example: to `bytearray(b"ab")` the value `b"cd"` makes `bytearray(b"abcd")`.
    pub fn extend(&mut self, value: Value, loans: LoanList) -> Made<LocalReply>
        requires { LoansFit loans }
        ensures ok { StepsBy subjects.Own (verbs.Extend value) loans self.old result self.new }
        ensures err { OnErr result (self.new ≡ self.old) }
    {
        step_of(
            &mut self.exporter,
            Subject::Own,
            Verb::Extend { value },
            loans,
        )
    }

    /// Puts a byte before the place that is nearest to an index, as Python's `bytearray.insert(index,
    /// value)` (Library reference, "Mutable Sequence Types").
    ///
    /// Refused with `TypeError` where the index is no number, and with `OverflowError` where it doesn't
    /// fit `isize`; then as `append` refuses the value.
    /// Example: in `bytearray(b"XYZc")` the index 0 and the value 33 make `bytearray(b"!XYZc")`.
    pub fn insert(&mut self, index: Value, value: Value, loans: LoanList) -> Made<LocalReply>
        requires { LoansFit loans }
        ensures ok { StepsBy subjects.Own (verbs.Insert index value) loans self.old result self.new }
        ensures err { OnErr result (self.new ≡ self.old) }
    {
        step_of(
            &mut self.exporter,
            Subject::Own,
            Verb::Insert { index, value },
            loans,
        )
    }

    /// Takes out the byte at an index, the last where none is given, and replies it, as Python's
    /// `bytearray.pop(index)` (Library reference, "Mutable Sequence Types").
    ///
    /// Refused with `TypeError` where the index is no number, with `OverflowError` where it doesn't fit
    /// `isize`, with `BufferError` where a view is unreleased, and then with `IndexError` out of range.
    /// Example: of `bytearray(b"!XYZc")` without an index it replies the item 99, and leaves `bytearray(b"!XYZ")`.
    // This is in line, since otherwise the values are moved here before they are dropped.
    #[inline(always)]
    pub fn pop(&mut self, index: Option<Value>, loans: LoanList) -> Made<LocalReply>
        requires { LoansFit loans }
        ensures ok { StepsBy subjects.Own (verbs.Pop index) loans self.old result self.new }
        ensures err { OnErr result (self.new ≡ self.old) }
    {
        self.exporter.pop(&index, &loans)
    }

    /// Takes out the first byte of this value, as Python's `bytearray.remove(value)` (Library
    /// reference, "Mutable Sequence Types").
    ///
    /// Refused as `append` refuses the value, and then with `ValueError` where no byte has it.
    /// Example: from `bytearray(b"abab")` the value 98 leaves `bytearray(b"aab")`.
    pub fn remove(&mut self, value: Value, loans: LoanList) -> Made<LocalReply>
        requires { LoansFit loans }
        ensures ok { StepsBy subjects.Own (verbs.Remove value) loans self.old result self.new }
        ensures err { OnErr result (self.new ≡ self.old) }
    {
        step_of(
            &mut self.exporter,
            Subject::Own,
            Verb::Remove { value },
            loans,
        )
    }

    /// Takes out all bytes, as Python's `bytearray.clear()` (Library reference, "Mutable Sequence
    /// Types").
    ///
    /// Refused with `BufferError` where a view is unreleased.
    /// Example: `bytearray(b"abc")` is `bytearray(b"")` then.
    pub fn clear(&mut self, loans: LoanList) -> Made<LocalReply>
        requires { LoansFit loans }
        ensures ok { StepsBy subjects.Own verbs.Clear loans self.old result self.new }
        ensures err { OnErr result (self.new ≡ self.old) }
    {
        step_of(&mut self.exporter, Subject::Own, Verb::Clear, loans)
    }

    /// Turns the order of the bytes round, as Python's `bytearray.reverse()` (Library reference, "Mutable Sequence
    /// Types"). The length stays, so this is done also while a view is unreleased.
    /// Example: `bytearray(b"abc")` is `bytearray(b"cba")` then.
    pub fn reverse(&mut self, loans: LoanList) -> Made<LocalReply>
        requires { LoansFit loans }
        ensures ok { StepsBy subjects.Own verbs.Reverse loans self.old result self.new }
        ensures err { OnErr result (self.new ≡ self.old) }
    {
        step_of(&mut self.exporter, Subject::Own, Verb::Reverse, loans)
    }

    /// Adds bytes at the end, as Python's `bytearray += value` (Library reference, "Mutable Sequence
    /// Types").
    ///
    /// Refused with `ValueError` for a released view, and with `TypeError` for a view whose items don't
    /// lie one after the other and for what is neither bytes nor a handle of them; with `BufferError`
    /// by itself, and where a view is unreleased.
    /// Example: to `bytearray(b"ab")` the value `b"cd"` makes `bytearray(b"abcd")`, and the value 5 is refused with `TypeError`.
    pub fn iadd(&mut self, value: Value, loans: LoanList) -> Made<LocalReply>
        requires { LoansFit loans }
        ensures ok { StepsBy subjects.Own (verbs.IAdd value) loans self.old result self.new }
        ensures err { OnErr result (self.new ≡ self.old) }
    {
        step_of(
            &mut self.exporter,
            Subject::Own,
            Verb::IAdd { value },
            loans,
        )
    }

    /// Puts the bytes repeated so many times in their place, and no byte for a negative number, as Python's
    /// `bytearray *= count` (Library reference, "Mutable Sequence Types").
    ///
    /// Refused with `TypeError` where the count is no number, and with `OverflowError` where it doesn't fit `isize`.
    /// By another number than 1, where there is a byte, it is refused with `BufferError` where a view is unreleased,
    /// and with `OverflowError` where the length passes `isize::MAX`.
    /// Example: `bytearray(b"ab")` by 2 is `bytearray(b"abab")`.
    pub fn imul(&mut self, count: Value, loans: LoanList) -> Made<LocalReply>
        requires { LoansFit loans }
        ensures ok { StepsBy subjects.Own (verbs.IMul count) loans self.old result self.new }
        ensures err { OnErr result (self.new ≡ self.old) }
    {
        step_of(
            &mut self.exporter,
            Subject::Own,
            Verb::IMul { count },
            loans,
        )
    }

    /// Compares the bytes with another value by an operator, as Python's `bytearray == other`, `bytearray < other`
    /// and so on (Language reference, "Value comparisons"). They are compared byte by byte with bytes, an exporter,
    /// or an unreleased view whose items lie one after the other. For any other value the reply is
    /// `NotImplementedReply`, as Python's `NotImplemented`.
    /// Example: `bytearray(b"ab")` with `CompareOp::Lt` and `b"b"` replies `Truth(true)`.
    pub fn cmp(&mut self, op: CompareOp, other: Value, loans: LoanList) -> Made<LocalReply>
        requires { LoansFit loans }
        ensures ok { StepsBy subjects.Own (verbs.Compare op other) loans self.old result self.new }
        ensures err { OnErr result (self.new ≡ self.old) }
    {
        step_of(
            &mut self.exporter,
            Subject::Own,
            Verb::Compare { op, other },
            loans,
        )
    }

    /// This is refused with `TypeError` always: a bytearray may change, so it has no hash, as in Python (Library
    /// reference, "Mutable Sequence Types").
    /// Example: of every bytearray it replies `Refused(Fault::Kind)`.
    pub fn hash(&mut self, loans: LoanList) -> Made<LocalReply>
        requires { LoansFit loans }
        ensures ok { StepsBy subjects.Own verbs.Hash loans self.old result self.new }
        ensures err { OnErr result (self.new ≡ self.old) }
    {
        step_of(&mut self.exporter, Subject::Own, Verb::Hash, loans)
    }

    /// The text that shows the bytes, as Python's `repr(bytearray)` (Library reference, "Bytearray Objects").
    ///
    /// Refused with `OverflowError` where the text has more than `isize::MAX` bytes.
    /// Example: of the bytes 97 and 0 it replies the text `bytearray(b'a\x00')`.
    pub fn repr_str(&mut self, loans: LoanList) -> Made<LocalReply>
        requires { LoansFit loans }
        ensures ok { StepsBy subjects.Own verbs.Repr loans self.old result self.new }
        ensures err { OnErr result (self.new ≡ self.old) }
    {
        step_of(&mut self.exporter, Subject::Own, Verb::Repr, loans)
    }

    /// Whether a value stands in the bytes, as Python's `value in bytearray` (Library reference, "Common Sequence
    /// Operations"). A number is one byte, and any other value is read as bytes. Refused with `ValueError` for a
    /// number outside `0..256`, and as `bytes_from_object` refuses any other value.
    /// Example: in `bytearray(b"Abc")` the value `b"bc"` replies `Truth(true)`.
    pub fn contains(&mut self, value: Value, loans: LoanList) -> Made<LocalReply>
        requires { LoansFit loans }
        ensures ok { StepsBy subjects.Own (verbs.Contains value) loans self.old result self.new }
        ensures err { OnErr result (self.new ≡ self.old) }
    {
        step_of(
            &mut self.exporter,
            Subject::Own,
            Verb::Contains { value },
            loans,
        )
    }

    /// Calls a method by its name, as Python's `bytearray.find(value)` and the others (Library reference, "Bytes and
    /// Bytearray Operations"). Refused with `TypeError` for a wrong number of arguments, then as the first argument
    /// from left to right that is refused, and then by the method's own rule.
    /// Example: on `bytearray(b"a,b,c")` the method `MethodName::RFind` with `b","` replies the item 3.
    pub fn call(&mut self, method: MethodCall, loans: LoanList) -> Made<LocalReply>
        requires { LoansFit loans }
        ensures ok { StepsBy subjects.Own (verbs.Call method) loans self.old result self.new }
        ensures err { OnErr result (self.new ≡ self.old) }
    {
        step_of(
            &mut self.exporter,
            Subject::Own,
            Verb::Call { method },
            loans,
        )
    }

    /// Puts the bytes of a source in place of all, as Python's `bytearray.__init__(source, encoding,
    /// errors)` (Library reference, "Bytearray Objects").
    ///
    /// Refused as `NewOptions::get_bytearray_inner` refuses the options, and then with
    /// `BufferError` where a view is unreleased.
    /// Example: `bytearray(b"abc")` by the source `b"ab"` is `bytearray(b"ab")`.
    pub fn init(&mut self, options: ByteInnerNewOptions, loans: LoanList) -> Made<LocalReply>
        requires { LoansFit loans }
        ensures ok { StepsBy subjects.Own (verbs.Init options) loans self.old result self.new }
        ensures err { OnErr result (self.new ≡ self.old) }
    {
        step_of(
            &mut self.exporter,
            Subject::Own,
            Verb::Init { options },
            loans,
        )
    }

    /// The copy of the bytes, of which another bytearray is to be made, as Python's `bytearray.copy()`
    /// (Library reference, "Mutable Sequence Types"). `ExporterState::exporter_of_copy` makes it of the
    /// reply.
    /// Example: of `bytearray(b"abc")` it replies `Fresh(snap)`, and the bytes of `snap` are `b"abc"`.
    pub fn copy(&mut self, loans: LoanList) -> Made<LocalReply>
        requires { LoansFit loans }
        ensures ok { StepsBy subjects.Own verbs.Copy loans self.old result self.new }
        ensures err { OnErr result (self.new ≡ self.old) }
    {
        step_of(&mut self.exporter, Subject::Own, Verb::Copy, loans)
    }
}

impl BufferResizeGuard for PyByteArray {
    ghost exporter = { λ b. b };

    ghost resized = { resized_exporter };

    ghost keeps_the_rest = { λ b bytes. refl };

    ghost use Rattle.std.specs.Prelude.{refl};
    ghost use Rattle.pybuf_exporter.specs.Lending.{resized_exporter};
    ghost use Rattle.pybuf_object.specs.Lending.{LendsAllIfOk, LendsAllIfSome};

    fn try_resizable_opt(&mut self) -> Option<&mut Vec<u8>>
        requires { self.old.kind ≡ kinds.ByteArray }
        ensures* writes_back { sem 𝓛 (LendsAllIfSome self.entry result) }
        ensures value { IfSome result (λ bytes. bytes.now.items ≡ self.old.bytes) }
        ensures exact { IsSome result ↔ (exports_of self.old ≡ 0) }
    {
        PyByteArray::try_resizable_opt(self)
    }

    fn try_resizable(&mut self) -> Result<&mut Vec<u8>, Fault>
        requires { self.old.kind ≡ kinds.ByteArray }
        ensures* writes_back { sem 𝓛 (LendsAllIfOk self.entry result) }
        ensures value { IfOk result (λ bytes. bytes.now.items ≡ self.old.bytes) }
        ensures refused { IfErr result (λ fault. fault ≡ Fault.Buffer) }
        ensures exact { IsOk result ↔ (exports_of self.old ≡ 0) }
    {
        PyByteArray::try_resizable(self)
    }
}
