//! `set` of a view by a slice: items are copied over those that the slice picks.
ghost use Rattle.std.specs.Prelude.{◌≡◌, [], ◌∷◌, true, false, length, codes, Some, Ok, Err, IfOk, MatchResult, Option};
ghost use Rattle.pybuf_value.specs.Halting.{Gives};
ghost use Rattle.pybuf_value.specs.declared.values.Scalar.TheVariants as scalars;
ghost use Rattle.pybuf_value.specs.declared.values.Value.TheVariants as values;
ghost use Rattle.pybuf_value.specs.Snaps.{is_iterator};
ghost use Rattle.pybuf_value.specs.declared.snaps.Snap as snaps;
ghost use Rattle.pybuf_desc.specs.Layouts.{Layout, LiesInside};
ghost use Rattle.pybuf_command.specs.declared.kinds.ExporterKind.{ExporterKind};
ghost use Rattle.pybuf_command.specs.declared.kinds.ExporterKind.TheVariants as kinds;
ghost use Rattle.pybuf_command.specs.declared.kinds.Subject.TheVariants as subjects;
ghost use Rattle.pybuf_memoryview.specs.Fits.{fits_snap};
ghost use Rattle.pybuf_memoryview.specs.Snaps.{snap_of_layout};
ghost use Rattle.pybuf_state.specs.Exporter.{Exporter, exports_of};
ghost use Rattle.pybuf_state.specs.Loans.{lents_of_value};
ghost use Rattle.pybuf_state.specs.Names as names_spec;
ghost use Rattle.pybuf_state.specs.Snaps.{snap_of_exporter, snap_of_subject};
ghost use Rattle.pybuf_state.specs.Answers.{exporter_of, IsWhole, Answers, AnswersIn, as_done};
ghost use Rattle.pybuf_state.specs.Laws.{IsSoundLayout};
ghost use Rattle.pybuf_verbs_writes.specs.Assign as spec;

use crate::laid::{lay, lay_across, lay_moved};
use pybuf_command::{LocalReply, Subject};
use pybuf_index::SaturatedSlice;
use pybuf_memoryview::{KeptLayout, content_of, first_place, is_byte_format, is_none, is_row_of};
use pybuf_state::{Meaning, Names, Other, Parts};
use pybuf_value::{Fault, Halt, PySlice, Scalar, Snap, Value};

/// The layout of the items that something is written over, which isn't `None`.
fn written(parts: &Parts, view: usize, slice: &PySlice) -> Result<KeptLayout, Halt>
    requires { IsWhole parts.now }
    ensures exact { Gives (spec.assign_target (exporter_of parts.now) view slice.now (values.One scalars.Ellipsis)) result }
    ensures one_dimension { IfOk result (λ target. length target.shape ≡ 1) }
    ensures inside { IfOk result (λ target. LiesInside (length parts.now.bytes.items) target) }
{
    pybuf_desc::slices_stay_inside();
    let layout = parts.live_layout(view)?;
    if layout.is_readonly() {
        return Err(Halt::Refused(Fault::Kind));
    }
    if layout.ndim() == 0 {
        return Err(Halt::Refused(Fault::Kind));
    }
    if layout.ndim() != 1 {
        return Err(Halt::Refused(Fault::NotImplemented));
    }
    let slice = SaturatedSlice::with_slice(slice)?;
    let target = layout.sliced(parts.alloc, slice)?;
    Ok(target)
}

/// The layout of the items that a value is written over.
fn target(parts: &Parts, view: usize, slice: &PySlice, value: &Value) -> Result<KeptLayout, Halt>
    requires { IsWhole parts.now }
    ensures exact { Gives (spec.assign_target (exporter_of parts.now) view slice.now value.now) result }
    ensures one_dimension { IfOk result (λ target. length target.shape ≡ 1) }
    ensures inside { IfOk result (λ target. LiesInside (length parts.now.bytes.items) target) }
{
    if is_none(value) {
        parts.live_layout(view)?;
        return Err(Halt::Refused(Fault::Kind));
    }
    written(parts, view, slice)
}

/// Whether items have the format, the item size and the shape of those that are written.
fn has_form_of(target: &KeptLayout, format: &[u8], itemsize: usize, shape: &[usize]) -> bool
    ensures { result ≡ spec.has_form_of target.now format.now itemsize shape.now }
{
    format == target.format_text().as_slice()
        && itemsize == target.itemsize()
        && is_row_of(target.first_entry(), shape)
}

/// The same of so many bytes.
fn takes_bytes(target: &KeptLayout, count: usize) -> bool
    ensures { result ≡ spec.has_form_of target.now (codes "B") 1 (count ∷ []) }
{
    is_byte_format(target.format_text().as_slice())
        && target.itemsize() == 1
        && target.first_entry() == count
}

/// The same of the items of another view.
fn has_form_of_layout(target: &KeptLayout, source: &KeptLayout) -> bool
    ensures { result ≡ spec.has_form_of target.now source.now.format source.now.itemsize source.now.shape }
{
    source.format_text().as_slice() == target.format_text().as_slice()
        && source.itemsize() == target.itemsize()
        && source.ndim() == 1
        && source.first_entry() == target.first_entry()
}

/// Copies bytes that lie outside the exporter.
fn from_bytes(parts: &mut Parts, target: &KeptLayout, bytes: &[u8]) -> Result<LocalReply, Halt>
    requires whole { IsWhole parts.old }
    requires one_dimension { length target.now.shape ≡ 1 }
    requires inside { LiesInside (length parts.old.bytes.items) target.now }
    ensures answer { (kind : ExporterKind) → AnswersIn parts.old (λ e. spec.assigned_bytes e target.now kind bytes.now) result parts.new }
    ensures as_bytes { AnswersIn parts.old (λ e. spec.assigned_bytes e target.now kinds.Bytes bytes.now) result parts.new }
    ensures counted { parts.new.exports ≡ exports_of (exporter_of parts.new) }
    ensures room { parts.new.bytes.room ≡ parts.old.bytes.room }
{
    if !takes_bytes(target, bytes.len()) {
        return Err(Halt::Refused(Fault::Value));
    }
    lay(parts.bytes.as_mut_slice(), target, bytes);
    Ok(LocalReply::Ok)
}

/// Copies the items of a snap that is no iterator's.
fn from_snap(parts: &mut Parts, target: &KeptLayout, snap: &Snap) -> Result<LocalReply, Halt>
    requires whole { IsWhole parts.old }
    requires one_dimension { length target.now.shape ≡ 1 }
    requires inside { LiesInside (length parts.old.bytes.items) target.now }
    requires fits { fits_snap snap.now ≡ true }
    requires no_iterator { is_iterator snap.now.kind ≡ false }
    ensures answer { AnswersIn parts.old (λ e. spec.assigned e target.now snap.now) result parts.new }
    ensures counted { parts.new.exports ≡ exports_of (exporter_of parts.new) }
    ensures room { parts.new.bytes.room ≡ parts.old.bytes.room }
{
    if snap.released {
        return Err(Halt::Refused(Fault::Value));
    }
    if !has_form_of(
        target,
        snap.format.as_slice(),
        snap.itemsize,
        snap.shape.as_slice(),
    ) {
        return Err(Halt::Refused(Fault::Value));
    }
    lay(parts.bytes.as_mut_slice(), target, snap.content.as_slice());
    Ok(LocalReply::Ok)
}

/// Copies what was lent of another exporter, as it stood.
fn from_other(parts: &mut Parts, target: &KeptLayout, snap: &Snap) -> Result<LocalReply, Halt>
    requires whole { IsWhole parts.old }
    requires one_dimension { length target.now.shape ≡ 1 }
    requires inside { LiesInside (length parts.old.bytes.items) target.now }
    requires fits { fits_snap snap.now ≡ true }
    ensures answer { AnswersIn parts.old (λ e. spec.assigned_from e target.now (Some snap.now)) result parts.new }
    ensures counted { parts.new.exports ≡ exports_of (exporter_of parts.new) }
    ensures room { parts.new.bytes.room ≡ parts.old.bytes.room }
{
    if snap.kind.is_iterator() {
        return Err(Halt::Refused(Fault::Kind));
    }
    from_snap(parts, target, snap)
}

/// Copies all bytes of the exporter itself: by one move where the target has no gaps, else as they
/// were before the first is written.
fn from_own(parts: &mut Parts, target: &KeptLayout) -> Result<LocalReply, Halt>
    requires whole { IsWhole parts.old }
    requires one_dimension { length target.now.shape ≡ 1 }
    requires inside { LiesInside (length parts.old.bytes.items) target.now }
    ensures answer { AnswersIn parts.old (λ e. spec.assigned e target.now (snap_of_exporter e)) result parts.new }
    ensures counted { parts.new.exports ≡ exports_of (exporter_of parts.new) }
    ensures room { parts.new.bytes.room ≡ parts.old.bytes.room }
{
    if !takes_bytes(target, parts.bytes.len()) {
        return Err(Halt::Refused(Fault::Value));
    }
    if target.is_contiguous() {
        lay_moved(parts.bytes.as_mut_slice(), target, 0);
        return Ok(LocalReply::Ok);
    }
    let content = Vec::from_slice(parts.alloc, parts.bytes.as_slice())?;
    lay(parts.bytes.as_mut_slice(), target, content.as_slice());
    Ok(LocalReply::Ok)
}

/// The layout of a view of an exporter that items are copied from.
fn source(parts: &Parts, view: usize) -> Result<&KeptLayout, Fault>
    requires { IsWhole parts.now }
    ensures exact { MatchResult result (λ l. spec.source_of (snap_of_subject (exporter_of parts.now) (subjects.View view)) ≡ Ok (snap_of_layout parts.now.bytes.items l.now false)) (λ f. (e : Exporter) (target : Layout) → spec.assigned_from e target (snap_of_subject (exporter_of parts.now) (subjects.View view)) ≡ Err f) }
    ensures sound { IfOk result (λ l. IsSoundLayout (exporter_of parts.now) l.now) }
{
    match parts.live_layout(view) {
        Ok(layout) => Ok(layout),
        Err(Fault::Value) => Err(Fault::Value),
        Err(_) => Err(Fault::Kind),
    }
}

/// Copies the items of a view of the exporter itself: by one move where neither side has gaps, else
/// as they were before the first byte is written.
fn from_view(parts: &mut Parts, target: &KeptLayout, view: usize) -> Result<LocalReply, Halt>
    requires whole { IsWhole parts.old }
    requires one_dimension { length target.now.shape ≡ 1 }
    requires inside { LiesInside (length parts.old.bytes.items) target.now }
    ensures answer { AnswersIn parts.old (λ e. spec.assigned_of e target.now e (subjects.View view)) result parts.new }
    ensures counted { parts.new.exports ≡ exports_of (exporter_of parts.new) }
    ensures room { parts.new.bytes.room ≡ parts.old.bytes.room }
{
    pybuf_memoryview::contents_are_whole();
    let source = source(parts, view)?;
    if !has_form_of_layout(target, source) {
        return Err(Halt::Refused(Fault::Value));
    }
    if target.is_contiguous() && source.is_contiguous() {
        let from = first_place(source);
        lay_moved(parts.bytes.as_mut_slice(), target, from);
        return Ok(LocalReply::Ok);
    }
    let content = content_of(parts.alloc, parts.bytes.as_slice(), source)?;
    lay(parts.bytes.as_mut_slice(), target, content.as_slice());
    Ok(LocalReply::Ok)
}

/// Copies the items of a view of another exporter from where they lie, row by row.
fn from_view_across(
    parts: &mut Parts,
    target: &KeptLayout,
    lender: &Parts,
    view: usize,
) -> Result<LocalReply, Halt>
    requires whole { IsWhole parts.old }
    requires lender_whole { IsWhole lender.now }
    requires one_dimension { length target.now.shape ≡ 1 }
    requires inside { LiesInside (length parts.old.bytes.items) target.now }
    ensures answer { AnswersIn parts.old (λ e. spec.assigned_of e target.now (exporter_of lender.now) (subjects.View view)) result parts.new }
    ensures counted { parts.new.exports ≡ exports_of (exporter_of parts.new) }
    ensures room { parts.new.bytes.room ≡ parts.old.bytes.room }
{
    let source = source(lender, view)?;
    if !has_form_of_layout(target, source) {
        return Err(Halt::Refused(Fault::Value));
    }
    lay_across(
        parts.bytes.as_mut_slice(),
        target,
        lender.bytes.as_slice(),
        source,
    );
    Ok(LocalReply::Ok)
}

/// Copies a subject of another exporter from where its bytes lie: no byte is copied between.
fn from_subject_across(
    parts: &mut Parts,
    target: &KeptLayout,
    lender: &Parts,
    subject: Subject,
) -> Result<LocalReply, Halt>
    requires whole { IsWhole parts.old }
    requires lender_whole { IsWhole lender.now }
    requires one_dimension { length target.now.shape ≡ 1 }
    requires inside { LiesInside (length parts.old.bytes.items) target.now }
    ensures answer { AnswersIn parts.old (λ e. spec.assigned_of e target.now (exporter_of lender.now) subject) result parts.new }
    ensures counted { parts.new.exports ≡ exports_of (exporter_of parts.new) }
    ensures room { parts.new.bytes.room ≡ parts.old.bytes.room }
{
    match subject {
        Subject::Own => from_bytes(parts, target, lender.bytes.as_slice()),
        Subject::View(view) => from_view_across(parts, target, lender, view),
        Subject::Iter(_) => Err(Halt::Refused(Fault::Kind)),
    }
}

/// Copies what a handle names.
#[tactic(auto, using(pybuf_state::specs::Facts::other_snap))]
fn from_meaning(
    parts: &mut Parts,
    target: &KeptLayout,
    meaning: Meaning<'_>,
) -> Result<LocalReply, Halt>
    requires whole { IsWhole parts.old }
    requires one_dimension { length target.now.shape ≡ 1 }
    requires inside { LiesInside (length parts.old.bytes.items) target.now }
    requires sound { names_spec.IsSoundMeaning meaning }
    ensures answer { AnswersIn parts.old (λ e. spec.assigned_as e target.now (names_spec.meant meaning.entry)) result parts.new }
    ensures counted { parts.new.exports ≡ exports_of (exporter_of parts.new) }
    ensures room { parts.new.bytes.room ≡ parts.old.bytes.room }
{
    match meaning {
        Meaning::Own(Subject::Own) => from_own(parts, target),
        Meaning::Own(Subject::View(view)) => from_view(parts, target, view),
        Meaning::Own(Subject::Iter(_)) => Err(Halt::Refused(Fault::Kind)),
        Meaning::Other(Other::Snap(snap)) => from_other(parts, target, snap),
        Meaning::Other(Other::Lies { lender, subject }) => {
            from_subject_across(parts, target, lender, subject)
        }
        Meaning::Nothing => Err(Halt::Refused(Fault::Kind)),
    }
}

/// Copies what a value is or names.
fn from_value<N: Names>(
    parts: &mut Parts,
    target: &KeptLayout,
    value: &Value,
    names: &N,
) -> Result<LocalReply, Halt>
    requires whole { IsWhole parts.old }
    requires one_dimension { length target.now.shape ≡ 1 }
    requires inside { LiesInside (length parts.old.bytes.items) target.now }
    requires fit { N.fit names.now }
    ensures answer { AnswersIn parts.old (λ e. spec.assigned_of_value e target.now value.now (lents_of_value e (N.named names.now) value.now)) result parts.new }
    ensures counted { parts.new.exports ≡ exports_of (exporter_of parts.new) }
    ensures room { parts.new.bytes.room ≡ parts.old.bytes.room }
{
    match value {
        Value::One(Scalar::Bytes(bytes)) => from_bytes(parts, target, bytes.as_slice()),
        Value::One(Scalar::Handle(handle)) => from_meaning(parts, target, names.meaning(*handle)),
        _ => Err(Halt::Refused(Fault::Kind)),
    }
}

/// Copies over the items that a slice of a view picks. From another exporter that is lent itself, or from a view of
/// it, they are copied from where they lie.
///
/// Refused with `UnknownName` for a view that was never given, and with `ValueError` for a released one; with
/// `TypeError` where it may only be read, for `None`, and where it has no dimension; with `NotImplementedError` where
/// it has several; and as `SaturatedSlice::with_slice` refuses the slice. Then a source that is neither bytes nor a
/// handle of an exporter or a view is refused with `TypeError`, and with `ValueError` a released one and one of
/// another format, item size or shape. Nothing is changed then, nor where memory runs out.
/// Example: over the slice `0:2` of a view of `b"abc"` the value `b"12"` makes `b"12c"`.
pub fn of_view<N: Names>(
    parts: &mut Parts,
    view: usize,
    slice: &PySlice,
    value: &Value,
    names: &N,
) -> Result<LocalReply, Halt>
    requires whole { IsWhole parts.old }
    requires fit { N.fit names.now }
    ensures answer { AnswersIn parts.old (λ e. spec.assign_of_view e view slice.now value.now (lents_of_value e (N.named names.now) value.now)) result parts.new }
    ensures counted { parts.new.exports ≡ exports_of (exporter_of parts.new) }
    ensures room { parts.new.bytes.room ≡ parts.old.bytes.room }
{
    let target = target(parts, view, slice, value)?;
    from_value(parts, &target, value, names)
}

/// Copies bytes over the items that a slice of a view picks. It is refused as `of_view` is. Nothing is changed then.
/// Example: over the slice `0:2` of a view of `b"abc"` the bytes `b"12"` make `b"12c"`.
pub fn put_bytes(parts: &mut Parts, view: usize, slice: &PySlice, bytes: &[u8]) -> Result<(), Halt>
    requires { IsWhole parts.old }
    ensures answer { AnswersIn parts.old (λ e. spec.bytes_assigned e view slice.now bytes.now) (as_done result) parts.new }
    ensures counted { parts.new.exports ≡ exports_of (exporter_of parts.new) }
    ensures room { parts.new.bytes.room ≡ parts.old.bytes.room }
{
    let target = written(parts, view, slice)?;
    let answer = from_bytes(parts, &target, bytes);
    // The layout is dropped by a call. If it ended with its scope, the drop would spell out each way in which it may be
    // kept.
    drop(target);
    answer?;
    Ok(())
}

/// Whether an assignment was made. Its reply, which says no more, is let go of by a call, since one that ends with its
/// scope spells out all its variants.
fn told(answer: Result<LocalReply, Halt>) -> Result<(), Halt>
    ensures { (old : Exporter) (target : Layout) (lent : Option snaps.Snap) (new : Exporter) → Answers (spec.assigned_from old target lent) old answer new → Answers (spec.assigned_from old target lent) old (as_done result) new }
{
    match answer {
        Ok(reply) => {
            drop(reply);
            Ok(())
        }
        Err(halt) => Err(halt),
    }
}

/// Copies the items of a view of another exporter, from where they lie, over those that a slice of a view picks. No
/// memory is taken for them. Refused with `UnknownName` where the other view was never given, and then as `of_view`
/// is. Nothing is changed then.
/// Example: over the slice `3:` of a view of `b"abcdef"` a view of `b"XYZ"` makes `b"abcXYZ"`.
pub fn put_from(
    parts: &mut Parts,
    view: usize,
    slice: &PySlice,
    lender: &Parts,
    source: usize,
) -> Result<(), Halt>
    requires whole { IsWhole parts.old }
    requires lender_whole { IsWhole lender.now }
    ensures answer { AnswersIn parts.old (λ e. spec.assigned_across e view slice.now (exporter_of lender.now) source) (as_done result) parts.new }
    ensures counted { parts.new.exports ≡ exports_of (exporter_of parts.new) }
    ensures room { parts.new.bytes.room ≡ parts.old.bytes.room }
{
    lender.view(source)?;
    let target = written(parts, view, slice)?;
    let answer = from_view_across(parts, &target, lender, source);
    // The layout is dropped by a call. If it ended with its scope, the drop would spell out each way in which it may be
    // kept.
    drop(target);
    told(answer)
}

/// Copies the items of a view of the exporter itself over those that a slice of a view picks. They count as they were
/// before the first is written. It is refused as `put_from` is. Nothing is changed then.
/// Example: over the slice `::-1` of a view of `b"abc"` the view itself makes `b"cba"`.
pub fn put_within(
    parts: &mut Parts,
    view: usize,
    slice: &PySlice,
    source: usize,
) -> Result<(), Halt>
    requires { IsWhole parts.old }
    ensures answer { AnswersIn parts.old (λ e. spec.assigned_across e view slice.now e source) (as_done result) parts.new }
    ensures counted { parts.new.exports ≡ exports_of (exporter_of parts.new) }
    ensures room { parts.new.bytes.room ≡ parts.old.bytes.room }
{
    parts.view(source)?;
    let target = written(parts, view, slice)?;
    let answer = from_view(parts, &target, source);
    // The layout is dropped by a call. If it ended with its scope, the drop would spell out each way in which it may be
    // kept.
    drop(target);
    told(answer)
}
