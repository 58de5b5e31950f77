//! The commands on a memoryview, as methods of it.
ghost use Rattle.std.specs.Prelude.{◌≡◌, OnErr};
ghost use Rattle.pybuf_state.specs.Fits.{LoansFit};
ghost use Rattle.pybuf_command.specs.declared.commands.PropertyName.TheVariants as names;
ghost use Rattle.pybuf_command.specs.declared.commands.Verb.TheVariants as verbs;
ghost use Rattle.pybuf_memoryobject.specs.Plain.{ViewStepsBy};

use crate::memory_view::PyMemoryView;
use pybuf_buffer::step_of;
use pybuf_command::{LoanList, LocalReply, PropertyName, Subject, Verb};
use pybuf_exporter::ExporterState;
use pybuf_value::{CompareOp, Made, Value};

impl PyMemoryView {
    /// One more view of the same items, as Python's `memoryview(view)` (Library reference, "Memory Views"). The reply
    /// is its number.
    /// Example: of `PyMemoryView::of(0)`, the only view of its exporter, it replies `View(1)`.
    pub fn as_buffer(&self, state: &mut ExporterState, loans: LoanList) -> Made<LocalReply>
        requires { LoansFit loans }
        ensures ok { ViewStepsBy self.now verbs.View loans state.old result state.new }
        ensures err { OnErr result (state.new ≡ state.old) }
        ensures room { state.new.room ≡ state.old.room }
    {
        state.view_of_view(self.number(), &loans)
    }

    /// The item at a key, or one more view of the items that a slice picks, as Python's `view[key]` (Library
    /// reference, "Memory Views"). An index is a key where there is one dimension, and a tuple of one index for each
    /// dimension anywhere. Where there is no dimension, `()` names the one item, and `...` the view itself.
    ///
    /// Where there is a dimension, it is refused with `NotImplementedError` for a tuple of slices, and with
    /// `TypeError` for what is no key; for an index with `IndexError` where it doesn't fit `isize`, then with
    /// `NotImplementedError` where there are several dimensions, and then with `IndexError` out of range; for a slice
    /// with `TypeError` where its step is neither a number nor `None`, with `ValueError` for a step of 0, and with
    /// `TypeError` for another part; for a tuple with `TypeError` where a part is no number, then with `IndexError`
    /// where one doesn't fit `isize`, with `NotImplementedError` where it has too few indices, with `TypeError` where
    /// it has too many, and then with `IndexError` out of range. Where there is no dimension, every other key is
    /// refused with `TypeError`.
    /// Example: of a view of `b"abcdef"` the key 0 gets the item 97, and the key `::-2` the number of a view of `b"fdb"`.
    pub fn getitem(
        &self,
        state: &mut ExporterState,
        key: Value,
        loans: LoanList,
    ) -> Made<LocalReply>
        requires { LoansFit loans }
        ensures ok { ViewStepsBy self.now (verbs.Get key) loans state.old result state.new }
        ensures err { OnErr result (state.new ≡ state.old) }
        ensures room { state.new.room ≡ state.old.room }
    {
        state.get_of_view(self.number(), &key, &loans)
    }

    /// Writes the item at a key, or items over those that a slice picks, as Python's `view[key] = value` (Library
    /// reference, "Memory Views"). All views of these bytes see it.
    ///
    /// Refused with `TypeError` where the view may only be read, and for `None`; then as `getitem` refuses the key;
    /// then with `TypeError` where the format of the items doesn't take the value. For a slice it is refused with
    /// `NotImplementedError` where there isn't one dimension, with `TypeError` for a source that is neither bytes nor
    /// a handle of them, and with `ValueError` for a released source and for one of another format, size of an item
    /// or shape.
    /// Example: through the view `::-2` of `b"abcdef"` the key 0 and the value 70 make `b"abcdeF"`.
    pub fn setitem(
        &self,
        state: &mut ExporterState,
        key: Value,
        value: Value,
        loans: LoanList,
    ) -> Made<LocalReply>
        requires { LoansFit loans }
        ensures ok { ViewStepsBy self.now (verbs.Set key value) loans state.old result state.new }
        ensures err { OnErr result (state.new ≡ state.old) }
        ensures room { state.new.room ≡ state.old.room }
    {
        state.set_through_view(self.number(), &key, &value, &loans)
    }

    /// Whether the view is equal to another value, as Python's `view == other` and `view != other` (Library
    /// reference, "Memory Views"). It is equal to a view with as many dimensions, a shape that agrees and equal
    /// items, each read by its own format. Bytes and exporters count as one dimension of the format `B`. A released
    /// view is equal to itself alone.
    ///
    /// Refused with `TypeError` for an order, since views have none.
    /// Example: a view of the bytes 1 and 0 cast to `H` is equal to a view of the byte 1: `CompareOp::Eq` replies `Truth(true)`.
    pub fn cmp(
        &self,
        state: &mut ExporterState,
        op: CompareOp,
        other: Value,
        loans: LoanList,
    ) -> Made<LocalReply>
        requires { LoansFit loans }
        ensures ok { ViewStepsBy self.now (verbs.Compare op other) loans state.old result state.new }
        ensures err { OnErr result (state.new ≡ state.old) }
        ensures room { state.new.room ≡ state.old.room }
    {
        step_of(
            state,
            Subject::View(self.number()),
            Verb::Compare { op, other },
            loans,
        )
    }

    /// The bytes that are fed to a hasher, as in Python's `hash(view)` (Library reference, "Memory Views"). They are
    /// those of the items, in order, whatever the format.
    ///
    /// Refused with `ValueError` where the view was released, or may be written.
    /// Example: of a view of `bytes` `b"Abc"` it replies the bytes `b"Abc"`.
    pub fn hash(&self, state: &mut ExporterState, loans: LoanList) -> Made<LocalReply>
        requires { LoansFit loans }
        ensures ok { ViewStepsBy self.now verbs.Hash loans state.old result state.new }
        ensures err { OnErr result (state.new ≡ state.old) }
        ensures room { state.new.room ≡ state.old.room }
    {
        step_of(state, Subject::View(self.number()), Verb::Hash, loans)
    }

    /// The text that shows the view. It is `<memory K>` or `<released memory K>`, with its number K among the views
    /// of its exporter. Python's `repr(view)` has an address there (Library reference, "Memory Views").
    /// Example: of `PyMemoryView::of(0)` it replies the text `<memory 0>`.
    pub fn repr_str(&self, state: &mut ExporterState, loans: LoanList) -> Made<LocalReply>
        requires { LoansFit loans }
        ensures ok { ViewStepsBy self.now verbs.Repr loans state.old result state.new }
        ensures err { OnErr result (state.new ≡ state.old) }
        ensures room { state.new.room ≡ state.old.room }
    {
        step_of(state, Subject::View(self.number()), Verb::Repr, loans)
    }

    /// The bytes of the items as hexadecimal digits, of which the last dimension runs fastest, as Python's
    /// `view.hex(sep, bytes_per_sep)` (Library reference, "Memory Views"). Refused with `TypeError` where the
    /// separator is neither a text nor bytes; then with `TypeError` where the size of a group is no number, and with
    /// `OverflowError` where it doesn't fit; then, where there are bytes and the size isn't 0, with `ValueError` for
    /// a separator that isn't one byte below 128, and with `OverflowError` where the text is longer than
    /// `isize::MAX`.
    /// Example: of a view of `b"Abc"` with the separator `':'` it replies the text `41:62:63`.
    pub fn hex(
        &self,
        state: &mut ExporterState,
        sep: Option<Value>,
        group: Option<Value>,
        loans: LoanList,
    ) -> Made<LocalReply>
        requires { LoansFit loans }
        ensures ok { ViewStepsBy self.now (verbs.Hex sep group) loans state.old result state.new }
        ensures err { OnErr result (state.new ≡ state.old) }
        ensures room { state.new.room ≡ state.old.room }
    {
        step_of(
            state,
            Subject::View(self.number()),
            Verb::Hex { sep, group },
            loans,
        )
    }

    /// This is refused with `TypeError` always: no item of a view can be taken out, as Python's `del view[key]` can't
    /// (Library reference, "Memory Views"). The refusals that each method has come before.
    /// Example: of an unreleased view the key 0 is answered by `Refused(Fault::Kind)`.
    pub fn delitem(
        &self,
        state: &mut ExporterState,
        key: Value,
        loans: LoanList,
    ) -> Made<LocalReply>
        requires { LoansFit loans }
        ensures ok { ViewStepsBy self.now (verbs.Del key) loans state.old result state.new }
        ensures err { OnErr result (state.new ≡ state.old) }
        ensures room { state.new.room ≡ state.old.room }
    {
        step_of(
            state,
            Subject::View(self.number()),
            Verb::Del { key },
            loans,
        )
    }

    /// One more view of the same bytes, with items of another format, in one dimension or in those of a shape, as
    /// Python's `view.cast(format, shape)` (Library reference, "Memory Views"). The reply is its number.
    ///
    /// The format is one native code, alone or behind `@`, and it or that of the view has single bytes as items: it
    /// is `b`, `B` or `c`. `PyBuffer::new` makes views of every other format.
    ///
    /// Refused with `TypeError` where the items don't lie one after the other, where the format is no text, where the
    /// shape is neither a tuple nor a list, where there is no byte and a shape or another number of dimensions than
    /// one, and where neither side has one dimension; with `ValueError` for more than 64 dimensions, and for a text
    /// that isn't one native code; with `TypeError` where neither format has single bytes as items, for bytes that
    /// aren't a whole number of items, and for bytes other than those of one item where the shape is empty. Then it
    /// is refused by the numbers of the shape, in order, with `TypeError` for what is no number, with `OverflowError`
    /// for one that doesn't fit `isize`, with `ValueError` for one below 1, and for one with which the bytes would
    /// pass `isize::MAX`; and at last with `TypeError` where the items of the shape haven't as many bytes as the
    /// view.
    /// Example: of a view of `b"abcdef"`, `'B'` and `(2, 3)` give the items `[[97, 98, 99], [100, 101, 102]]`.
    pub fn cast(
        &self,
        state: &mut ExporterState,
        format: Value,
        shape: Option<Value>,
        loans: LoanList,
    ) -> Made<LocalReply>
        requires { LoansFit loans }
        ensures ok { ViewStepsBy self.now (verbs.Cast format shape) loans state.old result state.new }
        ensures err { OnErr result (state.new ≡ state.old) }
        ensures room { state.new.room ≡ state.old.room }
    {
        state.cast_of_view(self.number(), &format, &shape, &loans)
    }

    /// One more view of the same bytes, with items of another format in the dimensions of a shape, in column order.
    /// If the items are taken with the first index changing fastest, item k lies k item sizes from the first. The
    /// reply is its number. Python's views have no such method; arrays in other languages lie so.
    ///
    /// Refused as `cast` with a shape is.
    /// Example: of a view of `b"abcdef"`, `'B'` and `(2, 3)` give the items `[[97, 99, 101], [98, 100, 102]]`.
    pub fn cast_f(
        &self,
        state: &mut ExporterState,
        format: Value,
        shape: Value,
        loans: LoanList,
    ) -> Made<LocalReply>
        requires { LoansFit loans }
        ensures ok { ViewStepsBy self.now (verbs.CastF format shape) loans state.old result state.new }
        ensures err { OnErr result (state.new ≡ state.old) }
        ensures room { state.new.room ≡ state.old.room }
    {
        step_of(
            state,
            Subject::View(self.number()),
            Verb::CastF { format, shape },
            loans,
        )
    }

    /// One more view of the same items, which may only be read, as Python's `view.toreadonly()` (Library reference,
    /// "Memory Views"). The reply is its number.
    /// Example: of a view of a bytearray it replies the number of a view whose `setitem` is refused with `TypeError`.
    pub fn toreadonly(&self, state: &mut ExporterState, loans: LoanList) -> Made<LocalReply>
        requires { LoansFit loans }
        ensures ok { ViewStepsBy self.now verbs.ToReadonly loans state.old result state.new }
        ensures err { OnErr result (state.new ≡ state.old) }
        ensures room { state.new.room ≡ state.old.room }
    {
        step_of(state, Subject::View(self.number()), Verb::ToReadonly, loans)
    }

    /// The bytes of the items, as Python's `view.tobytes(order)` (Library reference, "Memory Views"). Where no order
    /// is given, or None or `C`, they stand with the last index changing fastest, and by `F` with the first. By `A`
    /// they stand as by `F` where the view is F-contiguous and not C-contiguous, and else as by `C`.
    ///
    /// Refused with `ValueError` for a released view and for another text, and with `TypeError` for an order that is
    /// no text.
    /// Example: of the items `[[97, 98, 99], [100, 101, 102]]` in the format `B` the order `'F'` gives `b"adbecf"`.
    pub fn tobytes(
        &self,
        state: &mut ExporterState,
        order: Option<Value>,
        loans: LoanList,
    ) -> Made<LocalReply>
        requires { LoansFit loans }
        ensures ok { ViewStepsBy self.now (verbs.ToBytes order) loans state.old result state.new }
        ensures err { OnErr result (state.new ≡ state.old) }
        ensures room { state.new.room ≡ state.old.room }
    {
        step_of(
            state,
            Subject::View(self.number()),
            Verb::ToBytes { order },
            loans,
        )
    }

    /// The view itself, as Python's `with view` begins (Library reference, "Memory Views", `release`).
    /// Example: it replies `Itself` of an unreleased view.
    pub fn enter(&self, state: &mut ExporterState, loans: LoanList) -> Made<LocalReply>
        requires { LoansFit loans }
        ensures ok { ViewStepsBy self.now verbs.Enter loans state.old result state.new }
        ensures err { OnErr result (state.new ≡ state.old) }
        ensures room { state.new.room ≡ state.old.room }
    {
        step_of(state, Subject::View(self.number()), Verb::Enter, loans)
    }

    /// Releases the view, as Python's `with view` ends (Library reference, "Memory Views", `release`).
    /// A second time changes nothing, and isn't refused.
    /// Example: after it `len` of the same view is refused with `ValueError`.
    pub fn exit(&self, state: &mut ExporterState, loans: LoanList) -> Made<LocalReply>
        requires { LoansFit loans }
        ensures ok { ViewStepsBy self.now verbs.Exit loans state.old result state.new }
        ensures err { OnErr result (state.new ≡ state.old) }
        ensures room { state.new.room ≡ state.old.room }
    {
        state.exit_of_view(self.number(), &loans)
    }

    /// The items with the shape of the view, as Python's `view.tolist()` (Library reference, "Memory Views"). Of a
    /// view without dimensions it is a list of its one item.
    /// Example: of a view of `b"Abc"` it replies the items 65, 98 and 99 with the shape 3.
    pub fn tolist(&self, state: &mut ExporterState, loans: LoanList) -> Made<LocalReply>
        requires { LoansFit loans }
        ensures ok { ViewStepsBy self.now verbs.ToList loans state.old result state.new }
        ensures err { OnErr result (state.new ≡ state.old) }
        ensures room { state.new.room ≡ state.old.room }
    {
        step_of(state, Subject::View(self.number()), Verb::ToList, loans)
    }

    /// The number of entries of the first dimension, as Python's `len(view)` (Library reference,
    /// "Memory Views").
    ///
    /// Refused with `TypeError` where there is no dimension.
    /// Example: of six bytes that are cast in the shape `(2, 3)` it replies the item 2.
    pub fn len(&self, state: &mut ExporterState, loans: LoanList) -> Made<LocalReply>
        requires { LoansFit loans }
        ensures ok { ViewStepsBy self.now verbs.Len loans state.old result state.new }
        ensures err { OnErr result (state.new ≡ state.old) }
        ensures room { state.new.room ≡ state.old.room }
    {
        step_of(state, Subject::View(self.number()), Verb::Len, loans)
    }

    /// A new iterator over the items from the first on, as Python's `iter(view)` (Library reference, "Memory Views").
    /// The reply is its number. One over several dimensions, or none, is made too, and refuses to go on.
    ///
    /// Refused with `ValueError` where the view was released.
    /// Example: of a view of a new bytearray it replies `Iter(0)`, which `PyMemoryViewIterator::of(0)` names.
    pub fn iter(&self, state: &mut ExporterState, loans: LoanList) -> Made<LocalReply>
        requires { LoansFit loans }
        ensures ok { ViewStepsBy self.now verbs.Iter loans state.old result state.new }
        ensures err { OnErr result (state.new ≡ state.old) }
        ensures room { state.new.room ≡ state.old.room }
    {
        step_of(state, Subject::View(self.number()), Verb::Iter, loans)
    }

    /// The exporter of the view, as Python's `view.obj` (Library reference, "Memory Views").
    /// Example: it replies `Own` of an unreleased view.
    pub fn obj(&self, state: &mut ExporterState, loans: LoanList) -> Made<LocalReply>
        requires { LoansFit loans }
        ensures ok { ViewStepsBy self.now (verbs.Property names.Obj) loans state.old result state.new }
        ensures err { OnErr result (state.new ≡ state.old) }
        ensures room { state.new.room ≡ state.old.room }
    {
        step_of(
            state,
            Subject::View(self.number()),
            Verb::Property {
                name: PropertyName::Obj,
            },
            loans,
        )
    }

    /// The number of bytes of all items, as Python's `view.nbytes` (Library reference, "Memory Views").
    /// Example: of three items of two bytes it replies the item 6.
    pub fn nbytes(&self, state: &mut ExporterState, loans: LoanList) -> Made<LocalReply>
        requires { LoansFit loans }
        ensures ok { ViewStepsBy self.now (verbs.Property names.Nbytes) loans state.old result state.new }
        ensures err { OnErr result (state.new ≡ state.old) }
        ensures room { state.new.room ≡ state.old.room }
    {
        step_of(
            state,
            Subject::View(self.number()),
            Verb::Property {
                name: PropertyName::Nbytes,
            },
            loans,
        )
    }

    /// Whether the items may only be read, as Python's `view.readonly` (Library reference, "Memory
    /// Views").
    /// Example: of a view of `bytes` it replies `Truth(true)`, and of a view of a bytearray `Truth(false)`.
    pub fn readonly(&self, state: &mut ExporterState, loans: LoanList) -> Made<LocalReply>
        requires { LoansFit loans }
        ensures ok { ViewStepsBy self.now (verbs.Property names.Readonly) loans state.old result state.new }
        ensures err { OnErr result (state.new ≡ state.old) }
        ensures room { state.new.room ≡ state.old.room }
    {
        step_of(
            state,
            Subject::View(self.number()),
            Verb::Property {
                name: PropertyName::Readonly,
            },
            loans,
        )
    }

    /// The number of bytes of an item, as Python's `view.itemsize` (Library reference, "Memory Views").
    /// Example: of a view with the format `H` it replies the item 2.
    pub fn itemsize(&self, state: &mut ExporterState, loans: LoanList) -> Made<LocalReply>
        requires { LoansFit loans }
        ensures ok { ViewStepsBy self.now (verbs.Property names.Itemsize) loans state.old result state.new }
        ensures err { OnErr result (state.new ≡ state.old) }
        ensures room { state.new.room ≡ state.old.room }
    {
        step_of(
            state,
            Subject::View(self.number()),
            Verb::Property {
                name: PropertyName::Itemsize,
            },
            loans,
        )
    }

    /// The number of dimensions, at most 64, as Python's `view.ndim` (Library reference, "Memory
    /// Views").
    /// Example: of a view in the shape `(2, 3)` it replies the item 2.
    pub fn ndim(&self, state: &mut ExporterState, loans: LoanList) -> Made<LocalReply>
        requires { LoansFit loans }
        ensures ok { ViewStepsBy self.now (verbs.Property names.Ndim) loans state.old result state.new }
        ensures err { OnErr result (state.new ≡ state.old) }
        ensures room { state.new.room ≡ state.old.room }
    {
        step_of(
            state,
            Subject::View(self.number()),
            Verb::Property {
                name: PropertyName::Ndim,
            },
            loans,
        )
    }

    /// The number of entries of each dimension, as Python's `view.shape` (Library reference, "Memory
    /// Views").
    /// Example: of a view of three bytes it replies `Numbers` with 3 alone.
    pub fn shape(&self, state: &mut ExporterState, loans: LoanList) -> Made<LocalReply>
        requires { LoansFit loans }
        ensures ok { ViewStepsBy self.now (verbs.Property names.Shape) loans state.old result state.new }
        ensures err { OnErr result (state.new ≡ state.old) }
        ensures room { state.new.room ≡ state.old.room }
    {
        step_of(
            state,
            Subject::View(self.number()),
            Verb::Property {
                name: PropertyName::Shape,
            },
            loans,
        )
    }

    /// How many bytes it is from one entry to the next, for each dimension, as Python's `view.strides` (Library
    /// reference, "Memory Views"). Where a slice would pass `isize`, it is the nearest `isize`.
    /// Example: of six bytes that are cast to `B` in the shape `(2, 3)` it replies `Numbers` with 3 and 1.
    pub fn strides(&self, state: &mut ExporterState, loans: LoanList) -> Made<LocalReply>
        requires { LoansFit loans }
        ensures ok { ViewStepsBy self.now (verbs.Property names.Strides) loans state.old result state.new }
        ensures err { OnErr result (state.new ≡ state.old) }
        ensures room { state.new.room ≡ state.old.room }
    {
        step_of(
            state,
            Subject::View(self.number()),
            Verb::Property {
                name: PropertyName::Strides,
            },
            loans,
        )
    }

    /// A 0 for each dimension, since no item is reached through a pointer. Python's `view.suboffsets` is `()` then
    /// (Library reference, "Memory Views").
    /// Example: of a view of two dimensions it replies `Numbers` with 0 and 0.
    pub fn suboffsets(&self, state: &mut ExporterState, loans: LoanList) -> Made<LocalReply>
        requires { LoansFit loans }
        ensures ok { ViewStepsBy self.now (verbs.Property names.Suboffsets) loans state.old result state.new }
        ensures err { OnErr result (state.new ≡ state.old) }
        ensures room { state.new.room ≡ state.old.room }
    {
        step_of(
            state,
            Subject::View(self.number()),
            Verb::Property {
                name: PropertyName::Suboffsets,
            },
            loans,
        )
    }

    /// The format of an item, as Python's `view.format` (Library reference, "Memory Views").
    /// Example: of a view of all bytes of a bytearray it replies the text `B`.
    pub fn format(&self, state: &mut ExporterState, loans: LoanList) -> Made<LocalReply>
        requires { LoansFit loans }
        ensures ok { ViewStepsBy self.now (verbs.Property names.Format) loans state.old result state.new }
        ensures err { OnErr result (state.new ≡ state.old) }
        ensures room { state.new.room ≡ state.old.room }
    {
        step_of(
            state,
            Subject::View(self.number()),
            Verb::Property {
                name: PropertyName::Format,
            },
            loans,
        )
    }

    /// Whether the items lie one after the other in one of both orders, that of C or that of Fortran, as Python's
    /// `view.contiguous` (Library reference, "Memory Views"). A view without items is contiguous.
    /// Example: of a view of all bytes it replies `Truth(true)`, and of its slice `::2` with two items or more `Truth(false)`.
    pub fn contiguous(&self, state: &mut ExporterState, loans: LoanList) -> Made<LocalReply>
        requires { LoansFit loans }
        ensures ok { ViewStepsBy self.now (verbs.Property names.Contiguous) loans state.old result state.new }
        ensures err { OnErr result (state.new ≡ state.old) }
        ensures room { state.new.room ≡ state.old.room }
    {
        step_of(
            state,
            Subject::View(self.number()),
            Verb::Property {
                name: PropertyName::Contiguous,
            },
            loans,
        )
    }

    /// Whether the items lie one after the other in the order of C, in which the last index changes fastest, as
    /// Python's `view.c_contiguous` (Library reference, "Memory Views"). It is true of a view without items.
    /// Example: of six bytes that are cast in the shape `(2, 3)` it replies `Truth(true)`.
    pub fn c_contiguous(&self, state: &mut ExporterState, loans: LoanList) -> Made<LocalReply>
        requires { LoansFit loans }
        ensures ok { ViewStepsBy self.now (verbs.Property names.CContiguous) loans state.old result state.new }
        ensures err { OnErr result (state.new ≡ state.old) }
        ensures room { state.new.room ≡ state.old.room }
    {
        step_of(
            state,
            Subject::View(self.number()),
            Verb::Property {
                name: PropertyName::CContiguous,
            },
            loans,
        )
    }

    /// Whether the items lie one after the other in the order of Fortran, in which the first index changes fastest,
    /// as Python's `view.f_contiguous` (Library reference, "Memory Views"). It is true of a view without items, of a
    /// contiguous one of at most one dimension, and of what `cast_f` makes.
    /// Example: of six bytes by `cast_f` in the shape `(2, 3)` it replies `Truth(true)`, and by `cast` `Truth(false)`.
    pub fn f_contiguous(&self, state: &mut ExporterState, loans: LoanList) -> Made<LocalReply>
        requires { LoansFit loans }
        ensures ok { ViewStepsBy self.now (verbs.Property names.FContiguous) loans state.old result state.new }
        ensures err { OnErr result (state.new ≡ state.old) }
        ensures room { state.new.room ≡ state.old.room }
    {
        step_of(
            state,
            Subject::View(self.number()),
            Verb::Property {
                name: PropertyName::FContiguous,
            },
            loans,
        )
    }
}
