//! One exporter with its views and iterators.
ghost use Rattle.std.specs.Prelude.{◌≡◌, ◌<◌, ◌↔◌, [], Some, IfOk, IfSome, IsSome, IsSomeAnd, IsOk, IfErr, OnErr, MatchOption, true, false, length, slice_get};

use crate::closing::closed;
use crate::copying::{copy_of_reply, twice};
use crate::direct;
use crate::uncounted::{answer, append, step as step_uncounted};
use pybuf_command::{ExporterKind, LoanList, LocalCommand, LocalReply, Subject, Verb};
use pybuf_desc::BufferDescriptor;
use pybuf_memoryview::KeptLayout;
use pybuf_state::{
    Names, Other, Parts, Store, content_of_subject, copies_are_faithful, exporter_of_copy,
    is_value_known, kind_of_subject, new_views_are_sound, run_of_subject, snap_of_subject,
};
use pybuf_value::{
    ByteList, Fault, Halt, Lent, Made, NoMemory, Snap, SnapKind, Twin, Value, copy_all,
};
use pybuf_verbs_views::release;
use std::alloc::Global;
use std::marker::Model;

/// An exporter of bytes, and all views and iterators that were made of it.
///
/// A clause sees as `exporter` its kind, its bytes, its views, each as a list of places, and its iterators, and beside
/// these as `room` how many bytes of free room lie before its bytes. In every exporter, each byte of each item of an
/// unreleased view lies inside, and the exporter is as long as when that view was made.
/// Example: `ExporterState::new(alloc, ExporterKind::ByteArray, bytes)` stands for one bytearray, of which no view was made.
#[derive(Debug, Drop)]
pub struct ExporterState {
    pub(crate) parts: Parts,
}

impl Model for ExporterState {
    ghost use Rattle.pybuf_state.specs.Answers.{IsWhole};
    ghost use Rattle.pybuf_exporter.specs.Stored.{StoredExporter, stored_of};

    ghost Value = { StoredExporter };

    ghost view = { λ s. stored_of s.parts };

    ghost invariant = { λ s. IsWhole s.parts };
}

impl ExporterState {
    ghost use Rattle.std.specs.Borrow.{sem};
    ghost use Rattle.pybuf_state.specs.Answers.{ChangesTo};
    ghost use Rattle.pybuf_state.specs.Exporter.{exports_of};
    ghost use Rattle.pybuf_command.specs.Kinds.{holds_readonly};
    ghost use Rattle.pybuf_exporter.specs.Lending.{LendsBytes, LendsAll, LendsRunOf};
    ghost use Rattle.pybuf_state.specs.Live.{is_live, layout_of, is_writable_run};
    ghost use Rattle.pybuf_desc.specs.Contiguous.{is_contiguous_layout};
    ghost use Rattle.pybuf_desc.specs.Items.{content_of_layout};
    ghost use Rattle.pybuf_value.specs.declared.faults.Fault.{Fault};
    ghost use Rattle.pybuf_value.specs.declared.faults.Fault.TheVariants as faults;
    ghost use Rattle.pybuf_command.specs.declared.commands.LocalReply.TheVariants as replies;
    ghost use Rattle.pybuf_command.specs.declared.commands.Verb.TheVariants as verbs;
    ghost use Rattle.pybuf_command.specs.declared.kinds.ExporterKind.TheVariants as kinds;
    ghost use Rattle.pybuf_command.specs.declared.kinds.Subject.TheVariants as subjects;
    ghost use Rattle.pybuf_desc.specs.Places.{layout_at};
    ghost use Rattle.pybuf_desc.specs.Valid.{IsPlaced};
    ghost use Rattle.pybuf_state.specs.Exporter.{with_view};
    ghost use Rattle.pybuf_state.specs.Laws.{IsSoundLayout};
    ghost use Rattle.pybuf_state.specs.Sound.{IsSoundExporter};
    ghost use Rattle.pybuf_desc.specs.Places.{Stands};
    ghost use Rattle.pybuf_desc.specs.Valid.{IsValid};
    ghost use Rattle.pybuf_value.specs.Snaps.{content_of, content_of_named};
    ghost use Rattle.pybuf_value.specs.Halting.{GivesLent};
    ghost use Rattle.pybuf_value.specs.Lent.{Lends, kind_of_named};
    ghost use Rattle.pybuf_exporter.specs.Stepping.{StateStepsBy, StepsByNames, CarriesOut, CarriesOutTwice, OwningChangesNothing};
    ghost use Rattle.pybuf_exporter.specs.Stored.{new_stored};
    ghost use Rattle.pybuf_exporter.specs.Counting.{edits_by};
    ghost use Rattle.pybuf_state.specs.Names.{IsSoundOther, snap_of_other};
    ghost use Rattle.pybuf_memoryview.specs.Fits.{fits_snap};
    ghost use Rattle.pybuf_state.specs.Fits.{LoansFit};
    ghost use Rattle.pybuf_state.specs.Snaps.{snap_of_subject};
    ghost use Rattle.pybuf_state.specs.Exporter.{released_in};
    ghost use Rattle.pybuf_state.specs.Fresh.{IsCopyOf, is_readonly_subject, made_of};

    /// An exporter of these bytes, with no views and no iterators. Takes no memory.
    /// Example: of the kind `ExporterKind::Bytes` and `b"abc"` its `bytes()` is `b"abc"`, and its `exports()` is 0.
    pub fn new(alloc: Global, kind: ExporterKind, bytes: ByteList) -> ExporterState
        ensures { result ≡ new_stored kind bytes }
    {
        ExporterState {
            parts: Parts {
                kind,
                bytes: Store::from_vec(bytes.into_vec()),
                views: Vec::new(alloc),
                iterators: Vec::new(alloc),
                exports: 0,
                alloc,
            },
        }
    }

    /// An exporter of the kind `ExporterKind::Bytes` without bytes. Takes no memory.
    /// Example: `ExporterState::empty(alloc).bytes()` is `b""`.
    pub fn empty(alloc: Global) -> ExporterState
        ensures { result ≡ new_stored kinds.Bytes [] }
    {
        ExporterState {
            parts: Parts {
                kind: ExporterKind::Bytes,
                bytes: Store::from_vec(Vec::new(alloc)),
                views: Vec::new(alloc),
                iterators: Vec::new(alloc),
                exports: 0,
                alloc,
            },
        }
    }

    /// Carries out a command, as its effect says. It is `step_counted` with a counter that nobody reads.
    ///
    /// A refusal is a reply, and changes nothing. A subject number that was never given is refused with
    /// `UnknownName`, and so is, before all else, a handle among the command's values that its loans do not name.
    /// Where memory runs out, nothing is changed. Only an edit changes the room.
    /// Example: the subject `Subject::Own` and the verb `Verb::Len` of three bytes reply the item 3.
    pub fn step(&mut self, command: &LocalCommand) -> Made<LocalReply>
        requires { LoansFit command.now.loans }
        ensures ok { CarriesOut command.now self.old.exporter result self.new.exporter }
        ensures err { OnErr result (self.new ≡ self.old) }
        ensures kept { edits_by command.now.subject command.now.verb ≡ false → self.new.room ≡ self.old.room }
    {
        step_uncounted(&mut self.parts, command)
    }

    /// Carries out a verb on a subject. What the handles of the verb name is asked of any names: a list of loans, or
    /// a world that lends the exporters beside this one. A refusal is a reply, and changes nothing. Where memory runs
    /// out, nothing is changed. Only an edit changes the room.
    /// Example: `state.carry_out(Subject::Own, &Verb::Len, &loans)` of three bytes replies the item 3.
    pub fn carry_out<N: Names>(
        &mut self,
        subject: Subject,
        verb: &Verb,
        names: &N,
    ) -> Made<LocalReply>
        requires { N.fit names.now }
        ensures ok { StepsByNames subject verb.now (N.named names.now) self.old.exporter result self.new.exporter }
        ensures err { OnErr result (self.new ≡ self.old) }
        ensures kept { edits_by subject verb.now ≡ false → self.new.room ≡ self.old.room }
        ensures was_sound { IsSoundExporter self.old.exporter }
    {
        crate::laws::steps_keep_sound();
        closed(answer(&mut self.parts, subject, verb, names))
    }

    /// Carries out a command, as `step`, and gives its reply twice. Where memory runs out, also for the second reply,
    /// nothing of the exporter is changed. Only an edit changes the room.
    ///
    /// A second exporter is never made. Only commands that change nothing reply what owns memory, with two
    /// exceptions: the bytes of `take` are copied before, and the iterator of `next` is put back.
    /// Example: `Verb::Len` of three bytes gives the item 3 twice.
    pub fn step_copied(&mut self, command: &LocalCommand) -> Made<(LocalReply, LocalReply)>
        requires { LoansFit command.now.loans }
        ensures ok { CarriesOutTwice command.now self.old.exporter result self.new.exporter }
        ensures twice { IfOk result (λ r. r.1 ≡ r.0) }
        ensures err { OnErr result (self.new.exporter ≡ self.old.exporter) }
        ensures kept { edits_by command.now.subject command.now.verb ≡ false → self.new.room ≡ self.old.room }
    {
        match (command.subject, &command.verb) {
            (Subject::Own, Verb::Take) => self.take_copied(command),
            (Subject::Iter(iterator), Verb::Next) => self.next_copied(iterator, command),
            _ => {
                crate::laws::owning_replies_change_nothing();
                self.read_copied(command)
            }
        }
    }

    /// The same of a command whose reply owns no memory, or which changes nothing.
    fn read_copied(&mut self, command: &LocalCommand) -> Made<(LocalReply, LocalReply)>
        requires fit { LoansFit command.now.loans }
        requires same { OwningChangesNothing command.now self.old.exporter }
        ensures ok { CarriesOutTwice command.now self.old.exporter result self.new.exporter }
        ensures twice { IfOk result (λ r. r.1 ≡ r.0) }
        ensures err { OnErr result (self.new.exporter ≡ self.old.exporter) }
        ensures kept { edits_by command.now.subject command.now.verb ≡ false → self.new.room ≡ self.old.room }
    {
        let reply = self.step(command)?;
        twice(self.parts.alloc, reply)
    }

    /// The same of `take`: the bytes that are replied are copied before.
    fn take_copied(&mut self, command: &LocalCommand) -> Made<(LocalReply, LocalReply)>
        requires fit { LoansFit command.now.loans }
        requires subject { command.now.subject ≡ subjects.Own }
        requires verb { command.now.verb ≡ verbs.Take }
        ensures ok { CarriesOutTwice command.now self.old.exporter result self.new.exporter }
        ensures twice { IfOk result (λ r. r.1 ≡ r.0) }
        ensures err { OnErr result (self.new.exporter ≡ self.old.exporter) }
        ensures kept { edits_by command.now.subject command.now.verb ≡ false → self.new.room ≡ self.old.room }
    {
        crate::laws::taken_bytes_are_all();
        let bytes = ByteList::from_slice(self.parts.alloc, self.parts.bytes.as_slice())?;
        let reply = self.step(command)?;
        let copy = match &reply {
            LocalReply::Bytes(_) => LocalReply::Bytes(bytes),
            other => copy_of_reply(self.parts.alloc, other)?,
        };
        Ok((reply, copy))
    }

    /// The same of `next`: where there is no memory for the second reply, the iterator is put as it was.
    fn next_copied(
        &mut self,
        iterator: usize,
        command: &LocalCommand,
    ) -> Made<(LocalReply, LocalReply)>
        requires fit { LoansFit command.now.loans }
        requires subject { command.now.subject ≡ subjects.Iter iterator }
        requires verb { command.now.verb ≡ verbs.Next }
        ensures ok { CarriesOutTwice command.now self.old.exporter result self.new.exporter }
        ensures twice { IfOk result (λ r. r.1 ≡ r.0) }
        ensures err { OnErr result (self.new.exporter ≡ self.old.exporter) }
        ensures kept { edits_by command.now.subject command.now.verb ≡ false → self.new.room ≡ self.old.room }
    {
        crate::laws::next_is_undone();
        let Ok(before) = self.parts.iterator(iterator) else {
            return self.read_copied(command);
        };
        let reply = self.step(command)?;
        match twice(self.parts.alloc, reply) {
            Ok(replies) => Ok(replies),
            Err(NoMemory) => {
                self.parts.put_iterator(iterator, before);
                Err(NoMemory)
            }
        }
    }

    // The commands that are called very often follow. Each lends its values by themselves, so that no verb is made for
    // it.

    /// A new view of all bytes, as `Verb::View` of the exporter itself. The reply is its number. This is never
    /// refused. Where memory runs out, nothing is changed.
    /// Example: of a new exporter it replies `View(0)`.
    pub fn view_of_own(&mut self, loans: &LoanList) -> Made<LocalReply>
        ensures ok { StateStepsBy subjects.Own verbs.View loans.now self.old result self.new }
        ensures err { OnErr result (self.new ≡ self.old) }
        ensures room { self.new.room ≡ self.old.room }
    {
        crate::laws::commands_keep_sound();
        closed(direct::view_of_own(&mut self.parts, loans))
    }

    /// A new view of the items of a view, as `Verb::View` of it. The reply is its number.
    ///
    /// Refused with `UnknownName` where the view was never given, and with `ValueError` where it is released. Nothing
    /// is changed then, nor where memory runs out.
    /// Example: of the view 0, the only one, it replies `View(1)`.
    pub fn view_of_view(&mut self, view: usize, loans: &LoanList) -> Made<LocalReply>
        ensures ok { StateStepsBy (subjects.View view) verbs.View loans.now self.old result self.new }
        ensures err { OnErr result (self.new ≡ self.old) }
        ensures room { self.new.room ≡ self.old.room }
    {
        crate::laws::commands_keep_sound();
        closed(direct::view_of_view(&mut self.parts, view, loans))
    }

    /// Releases a view, as `Verb::Exit`. The second time changes nothing, and isn't refused.
    ///
    /// Refused with `UnknownName` where the view was never given. Nothing is changed then.
    /// Example: `state.exit_of_view(0, &loans)` replies `Ok`, and `state.is_live(0)` is false then.
    pub fn exit_of_view(&mut self, view: usize, loans: &LoanList) -> Made<LocalReply>
        ensures ok { StateStepsBy (subjects.View view) verbs.Exit loans.now self.old result self.new }
        ensures err { OnErr result (self.new ≡ self.old) }
        ensures room { self.new.room ≡ self.old.room }
    {
        crate::laws::commands_keep_sound();
        closed(direct::exit_of_view(&mut self.parts, view, loans))
    }

    /// The byte at an index, or the bytes that a slice picks, as `Verb::Get` of the exporter itself.
    ///
    /// Refused with `UnknownName` where the exporter is a vector, and for a handle in the key that the loans don't
    /// name, before all else; with `TypeError` where the key is neither a number nor a slice, and where a part of the
    /// slice is neither a number nor `None`; with `ValueError` for a step of 0; with `IndexError` for an index out of
    /// range. Nothing is changed, whatever it replies.
    /// Example: of `b"abc"` the key `-1` gets the item 99, and the key `0:2` gets `b"ab"`.
    pub fn get_of_own(&mut self, key: &Value, loans: &LoanList) -> Made<LocalReply>
        ensures ok { StateStepsBy subjects.Own (verbs.Get key.now) loans.now self.old result self.new }
        ensures err { OnErr result (self.new ≡ self.old) }
        ensures room { self.new.room ≡ self.old.room }
    {
        crate::laws::commands_keep_sound();
        closed(direct::get_of_own(&mut self.parts, key, loans))
    }

    /// The item of a view at a key, or a new view of the items that a slice picks, as `Verb::Get` of it.
    ///
    /// Refused with `UnknownName` for a handle in the key that the loans don't name, before all else, and where the
    /// view was never given; with `ValueError` where it is released; then as `PyMemoryView::getitem` refuses the key.
    /// Nothing is changed then, nor where memory runs out.
    /// Example: of a view of `b"abcdef"` the key 0 gets the item 97, and the key `::-2` the number of a view of `b"fdb"`.
    pub fn get_of_view(&mut self, view: usize, key: &Value, loans: &LoanList) -> Made<LocalReply>
        ensures ok { StateStepsBy (subjects.View view) (verbs.Get key.now) loans.now self.old result self.new }
        ensures err { OnErr result (self.new ≡ self.old) }
        ensures room { self.new.room ≡ self.old.room }
    {
        crate::laws::commands_keep_sound();
        closed(direct::get_of_view(&mut self.parts, view, key, loans))
    }

    /// Writes the item of a view at a key, or items over those that a slice picks, as `Verb::Set` of it.
    ///
    /// Refused with `UnknownName` for a handle in the key or the value that the loans don't name, before all else,
    /// and where the view was never given; with `ValueError` where it is released; then as `PyMemoryView::setitem`
    /// refuses the key and the value. Nothing is changed then, nor where memory runs out.
    /// Example: through a view of all bytes of `b"abc"` the key 0 and the value 65 make `b"Abc"`.
    pub fn set_through_view(
        &mut self,
        view: usize,
        key: &Value,
        value: &Value,
        loans: &LoanList,
    ) -> Made<LocalReply>
        requires { LoansFit loans.now }
        ensures ok { StateStepsBy (subjects.View view) (verbs.Set key.now value.now) loans.now self.old result self.new }
        ensures err { OnErr result (self.new ≡ self.old) }
        ensures room { self.new.room ≡ self.old.room }
    {
        crate::laws::commands_keep_sound();
        closed(direct::set_through_view(&mut self.parts, view, key, value, loans))
    }

    /// A new view of the bytes of a view with items of another format, as `Verb::Cast`. The reply is its number.
    ///
    /// Refused with `UnknownName` for a handle in the values that the loans don't name, before all else, and where
    /// the view was never given; with `ValueError` where it is released; then as `PyMemoryView::cast` refuses the
    /// format and the shape. Nothing is changed then, nor where memory runs out.
    /// Example: of a view of `b"\x01\x00\x02\x00"` the format `'H'` gives the number of a view with the items 1 and 2.
    pub fn cast_of_view(
        &mut self,
        view: usize,
        format: &Value,
        shape: &Option<Value>,
        loans: &LoanList,
    ) -> Made<LocalReply>
        ensures ok { StateStepsBy (subjects.View view) (verbs.Cast format.now shape.now) loans.now self.old result self.new }
        ensures err { OnErr result (self.new ≡ self.old) }
        ensures room { self.new.room ≡ self.old.room }
    {
        crate::laws::commands_keep_sound();
        closed(direct::cast_of_view(&mut self.parts, view, format, shape, loans))
    }

    /// Adds a byte at the end, as `Verb::Append`.
    ///
    /// Refused with `UnknownName` where the exporter is no bytearray, and for a handle that the loans don't name,
    /// before all else; with `TypeError` where the value is no number, with `ValueError` outside `0..256`, and then
    /// with `BufferError` where a view is unreleased. Nothing is changed then, nor where memory runs out.
    /// Example: to the bytearray `b"abc"` the value 100 makes `b"abcd"`.
    pub fn append(&mut self, value: &Value, loans: &LoanList) -> Made<LocalReply>
        ensures ok { StateStepsBy subjects.Own (verbs.Append value.now) loans.now self.old result self.new }
        ensures err { OnErr result (self.new ≡ self.old) }
    {
        crate::laws::commands_keep_sound();
        if !is_value_known(&self.parts, loans, value) {
            return Ok(LocalReply::Refused(Fault::UnknownName));
        }
        closed(append(&mut self.parts, value))
    }

    /// Takes the byte at an index out, the last where none is given, as `Verb::Pop`. The reply is that byte.
    ///
    /// Refused with `UnknownName` where the exporter is no bytearray, and for a handle that the loans don't name,
    /// before all else; with `TypeError` where the index is no number, with `OverflowError` where it doesn't fit
    /// `isize`, with `BufferError` where a view is unreleased, and then with `IndexError` out of range. Nothing is
    /// changed then, nor where memory runs out.
    /// Example: of the bytearray `b"abc"` without an index it replies the item 99, and leaves `b"ab"`.
    pub fn pop(&mut self, index: &Option<Value>, loans: &LoanList) -> Made<LocalReply>
        ensures ok { StateStepsBy subjects.Own (verbs.Pop index.now) loans.now self.old result self.new }
        ensures err { OnErr result (self.new ≡ self.old) }
    {
        crate::laws::commands_keep_sound();
        closed(direct::pop(&mut self.parts, index, loans))
    }

    /// The exporter that is made of a copy. A copy of this bytearray makes another one of its bytes, with no view. A
    /// copy of one of its views makes a vector of the view's content with one view of all of it. That view has items
    /// of the same format in the same shape, and may only be read where the view that was copied may only be read.
    ///
    /// Such a copy is what a step replies as `LocalReply::Fresh`.
    /// Example: of `Subject::Own` and the `Snap` that `Verb::Copy` replies for `bytearray(b"abc")` it is a bytearray of `b"abc"`.
    pub fn exporter_of_copy(
        &self,
        alloc: Global,
        subject: Subject,
        copy: Snap,
    ) -> Made<ExporterState>
        requires { IsCopyOf self.now.exporter subject copy }
        ensures { IfOk result (λ made. made.exporter ≡ made_of (is_readonly_subject self.now.exporter subject) copy) }
    {
        copies_are_faithful();
        let parts = exporter_of_copy(&self.parts, alloc, subject, copy)?;
        Ok(ExporterState { parts })
    }

    /// A subject of this exporter, as what another exporter's command is lent, from where it lies. Takes no memory.
    /// Example: `other.lent(Subject::Own)` lends all bytes of `other` to a command of this one.
    pub fn lent(&self, subject: Subject) -> Other<'_>
        ensures value { snap_of_other result ≡ snap_of_subject self.now.exporter subject }
        ensures sound { IsSoundOther result }
    {
        Other::Lies {
            lender: &self.parts,
            subject,
        }
    }

    /// What kind of thing a subject is. It is `None` exactly where the subject was never given. Takes no memory.
    /// Example: of `Subject::View(0)` of an exporter without views it is `None`.
    pub fn kind_of(&self, subject: Subject) -> Option<SnapKind>
        ensures { result ≡ kind_of_named (snap_of_subject self.now.exporter subject) }
    {
        kind_of_subject(&self.parts, subject)
    }

    /// The bytes of a subject, where they lie together.
    ///
    /// Refused with `UnknownName` where it was never given, with `ValueError` for a released view, and with
    /// `TypeError` for a view whose items don't lie one after another and for an iterator.
    /// Example: of `Subject::Own` of `b"abc"` it is `Ok(b"abc")`, and of the view `memoryview(b"abc")[::2]` `Err(Fault::Kind)`.
    pub fn run_of(&self, subject: Subject) -> Result<&[u8], Fault>
        ensures { GivesLent (content_of (snap_of_subject self.now.exporter subject)) result }
    {
        run_of_subject(&self.parts, subject)
    }

    /// The bytes of a subject. They are copied only where they lie apart.
    ///
    /// Refused with `UnknownName` where it was never given, with `ValueError` for a released view, and with
    /// `TypeError` for an iterator.
    /// Example: of the view `memoryview(b"abcdef")[::-2]` it lends `b"fdb"`, which is a copy.
    pub fn content_of(&self, alloc: Global, subject: Subject) -> Result<Lent<'_>, Halt>
        ensures { Lends (content_of_named (snap_of_subject self.now.exporter subject)) result }
    {
        content_of_subject(alloc, &self.parts, subject)
    }

    /// Releases a view. Releasing it again changes nothing. Takes no memory.
    ///
    /// Refused with `UnknownName` exactly where the view was never given. Nothing is changed then.
    /// Example: `state.release_view(0)` is `Ok(())` after one view was made, and `Err(Fault::UnknownName)` before.
    pub fn release_view(&mut self, view: usize) -> Result<(), Fault>
        ensures exact { ChangesTo (released_in self.old.exporter view) result self.new.exporter }
        ensures given { IsOk result ↔ (view < length self.old.exporter.views) }
        ensures refused { IfErr result (λ f. f ≡ faults.UnknownName) }
        ensures err { OnErr result (self.new ≡ self.old) }
        ensures room { self.new.room ≡ self.old.room }
    {
        release::release(&mut self.parts, view)
    }

    /// What a handle of the exporter, of one of its views or of an iterator names, as it stands. The content of a
    /// released view is empty, and so is that of an iterator. It is None exactly where there is no such view or
    /// iterator.
    /// Example: of `Subject::Own` of the bytearray `b"abc"` it is a `Snap` with the content `b"abc"`.
    pub fn snap(&self, alloc: Global, subject: Subject) -> Made<Option<Snap>>
        ensures value { IfOk result (λ snap. snap ≡ snap_of_subject self.now.exporter subject) }
        ensures fits { IfOk result (λ snap. IfSome snap (λ s. fits_snap s ≡ true)) }
    {
        snap_of_subject(&self.parts, alloc, subject)
    }

    /// What kind of exporter it is. Takes no memory.
    /// Example: of the exporter of a `PyByteArray` it is `ExporterKind::ByteArray`.
    pub fn kind(&self) -> ExporterKind
        ensures { result ≡ self.now.exporter.kind }
    {
        self.parts.kind
    }

    /// The bytes, lent without a copy. Takes no memory.
    /// Example: of the exporter of `bytearray(b"abc")` it is `b"abc"`.
    pub fn bytes(&self) -> &[u8]
        ensures { result.now ≡ self.now.exporter.bytes }
    {
        self.parts.bytes.as_slice()
    }

    /// The bytes, lent to be written. Their number and all else of the exporter stay. Takes no memory. All views of
    /// these bytes see the writes.
    /// Example: after `state.bytes_mut()[0] = b'A'` what was `b"abc"` is `b"Abc"`.
    pub fn bytes_mut(&mut self) -> &mut [u8]
        requires { holds_readonly self.old.exporter.kind ≡ false }
        ensures* writes_back { sem 𝓛 (LendsBytes self.entry result) }
        ensures value { result.now ≡ self.old.exporter.bytes }
    {
        self.parts.bytes.as_mut_slice()
    }

    /// The bytes, lent to be changed in any way, in number too. Views and iterators stay. Takes no memory.
    ///
    /// Refused with `BufferError` exactly where a view is unreleased (C API, "Buffer Protocol", `PyBuffer_Release`).
    /// Nothing is changed then.
    /// Example: `state.resizable()` with one unreleased view is `Err(Fault::Buffer)`.
    pub fn resizable(&mut self) -> Result<&mut Vec<u8>, Fault>
        requires { holds_readonly self.old.exporter.kind ≡ false }
        ensures* writes_back { sem 𝓛 (LendsAll self.entry result) }
        ensures value { IfOk result (λ bytes. bytes.now.items ≡ self.old.exporter.bytes) }
        ensures refused { IfErr result (λ fault. fault ≡ Fault.Buffer) }
        ensures exact { IsOk result ↔ (exports_of self.old.exporter ≡ 0) }
    {
        if self.parts.exports > 0 {
            return Err(Fault::Buffer);
        }
        Ok(self.parts.bytes.as_vec_mut())
    }

    /// Whether a view of this number was given and is unreleased. Takes no memory.
    /// Example: `state.is_live(0)` is true after the first view was made, and false once it was released.
    pub fn is_live(&self, view: usize) -> bool
        ensures { result ≡ is_live self.now.exporter view }
    {
        if let Ok(given) = self.parts.view(view) {
            return !given.is_released();
        }
        false
    }

    /// The bytes of an unreleased view, lent without a copy. It is None exactly where its items don't lie one after
    /// the other. Takes no memory.
    /// Example: of a view of all bytes of `b"abc"` it is `Some(b"abc")`, and of its slice `::2` None.
    pub fn contiguous_bytes(&self, view: usize) -> Option<&[u8]>
        requires { is_live self.now.exporter view ≡ true }
        ensures { MatchOption result (is_contiguous_layout (layout_of self.now.exporter view) ≡ false) (λ bytes. (is_contiguous_layout (layout_of self.now.exporter view) ≡ true) × (bytes.now ≡ content_of_layout self.now.exporter.bytes (layout_of self.now.exporter view))) }
    {
        self.parts.contiguous_bytes(view)
    }

    /// Whether the items of an unreleased view lie one after the other and may be written. Takes no memory.
    /// Example: of a view of all bytes of a bytearray it is true, and of one of `bytes` false.
    pub fn is_writable_run(&self, view: usize) -> bool
        requires { is_live self.now.exporter view ≡ true }
        ensures { result ≡ is_writable_run (layout_of self.now.exporter view) }
    {
        self.parts.is_writable_run(view)
    }

    /// The bytes of an unreleased view whose items lie one after the other, lent to be written. What is written there
    /// takes the place of the bytes of the view, and of no others. Takes no memory.
    /// Example: of a view of the slice `1:3` of `b"abcd"`, whose first byte is then written with 66, the bytes are `b"aBcd"`.
    pub fn contiguous_bytes_mut(&mut self, view: usize) -> &mut [u8]
        requires live { is_live self.old.exporter view ≡ true }
        requires writable { is_writable_run (layout_of self.old.exporter view) ≡ true }
        ensures* writes_back { sem 𝓛 (LendsRunOf self.entry view result) }
        ensures value { result.now ≡ content_of_layout self.old.exporter.bytes (layout_of self.old.exporter view) }
    {
        self.parts.contiguous_bytes_mut(view)
    }

    /// One more view, by a descriptor and the place of its first item. The answer is its number. Where memory runs
    /// out, nothing is changed.
    /// Example: by `BufferDescriptor::simple(alloc, 3, false)?` and the start 0 of a new bytearray `b"abc"` it is 0.
    pub fn add_view(&mut self, descriptor: BufferDescriptor, start: usize) -> Made<usize>
        requires placed { IsPlaced descriptor start }
        requires sound { IsSoundLayout self.old.exporter (layout_at descriptor start) }
        ensures ok { IfOk result (λ view. with_view self.old.exporter (layout_at descriptor start) ≡ (self.new.exporter, replies.View view)) }
        ensures err { OnErr result (self.new ≡ self.old) }
        ensures room { self.new.room ≡ self.old.room }
    {
        new_views_are_sound();
        let number = self.view_count();
        match self
            .parts
            .add_view(KeptLayout::of_descriptor(descriptor, start))
        {
            Ok(_) => Ok(number),
            Err(_) => Err(NoMemory),
        }
    }

    /// The number of unreleased views. Takes no memory.
    /// Example: it is 1 after one view was made, and 0 once that is released.
    pub fn exports(&self) -> usize
        ensures count { result ≡ exports_of self.now.exporter }
        ensures sound { IsSoundExporter self.now.exporter }
    {
        self.parts.exports
    }

    /// A view's descriptor, and the place of its first item, counted in bytes from 0. It is None exactly where no
    /// view of this number was given. Takes no memory.
    ///
    /// They stand for the view, and describe items that lie inside the bytes while it is unreleased. Wherever they
    /// lie, walks over them are safe.
    /// Example: of the view `1:3` of `b"abcd"` it is a descriptor of two items of one byte, and the place 1.
    pub fn view_desc(&self, view: usize) -> Option<(&BufferDescriptor, usize)>
        ensures given { IsSome result ↔ (view < length self.now.exporter.views) }
        ensures stands { IfSome result (λ r. IsSomeAnd (slice_get self.now.exporter.views view) (λ v. Stands r.0.now r.1 v.layout)) }
        ensures placed { IfSome result (λ r. IsPlaced r.0.now r.1) }
        ensures valid { IfSome result (λ r. IsSomeAnd (slice_get self.now.exporter.views view) (λ v. v.released ≡ false → IsValid r.0.now r.1 (length self.now.exporter.bytes))) }
    {
        pybuf_desc::valid_where_items_lie_inside();
        match self.parts.view(view) {
            Ok(view) => Some(view.layout().placed()),
            Err(_) => None,
        }
    }

    /// The number of views that were given, released ones too. Takes no memory.
    /// Example: it is 1 after one view was made, and stays 1 once that is released.
    pub fn view_count(&self) -> usize
        ensures { result ≡ length self.now.exporter.views }
    {
        self.parts.views.len()
    }

    /// The number of iterators that were made of the exporter and of its views, exhausted ones too. Takes no memory.
    /// Example: it is 1 after `Verb::Iter` of a new exporter.
    pub fn iter_count(&self) -> usize
        ensures { result ≡ length self.now.exporter.iterators }
    {
        self.parts.iterators.len()
    }
}

// A copy is the same exporter, but has no free room.
impl Twin for ExporterState {
    ghost use Rattle.std.specs.Prelude.{◌≡◌};
    ghost use Rattle.pybuf_exporter.specs.Stored.{without_room};

    ghost same = { λ old twin. twin ≡ without_room old };

    fn copy(&self, alloc: Global) -> Made<ExporterState> {
        let bytes = Store::from_vec(Vec::from_slice(alloc, self.parts.bytes.as_slice())?);
        let views = copy_all(alloc, self.parts.views.as_slice())?;
        let iterators = Vec::from_slice(alloc, self.parts.iterators.as_slice())?;
        Ok(ExporterState {
            parts: Parts {
                kind: self.parts.kind,
                bytes,
                views,
                iterators,
                exports: self.parts.exports,
                alloc,
            },
        })
    }
}
