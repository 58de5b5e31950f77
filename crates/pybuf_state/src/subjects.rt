//! What a handle of an exporter names, and its bytes from where they lie.
ghost use Rattle.std.specs.Prelude.{◌≡◌, length, Ok};
ghost use Rattle.pybuf_value.specs.Snaps.{content_of, content_of_named};
ghost use Rattle.pybuf_desc.specs.Items.{content_of_layout};
ghost use Rattle.pybuf_desc.specs.Layouts.{LiesInside};
ghost use Rattle.pybuf_command.specs.declared.kinds.Subject.TheVariants as subjects;
ghost use Rattle.pybuf_value.specs.Lent.{Lends, kind_of_named};
ghost use Rattle.pybuf_state.specs.Loans.{snap_in};
ghost use Rattle.pybuf_state.specs.Names as names_spec;
ghost use Rattle.pybuf_state.specs.Snaps as spec;
ghost use Rattle.pybuf_state.specs.Answers.{exporter_of, IsWhole};
ghost use Rattle.pybuf_value.specs.Halting.{GivesLent};

use crate::names::{Meaning, Other};
use crate::parts::Parts;
use crate::runs::{bytes_in_a_row, given, run_of};
use crate::snaps::kind_of;
use pybuf_command::Subject;
use pybuf_memoryview::{KeptLayout, content_of};
use pybuf_value::{Fault, Halt, Lent, SnapKind, content_of_snap, run_of_snap};
use std::alloc::Global;

/// What kind of thing a subject is. It is `None` exactly where the subject was never given. Takes no memory.
/// Example: of `Subject::View(0)` of an exporter without views it is `None`.
pub fn kind_of_subject(parts: &Parts, subject: Subject) -> Option<SnapKind>
    ensures { result ≡ kind_of_named (spec.snap_of_subject (exporter_of parts.now) subject) }
{
    match subject {
        Subject::Own => Some(kind_of(parts.kind)),
        Subject::View(view) => match parts.views.get(view) {
            Some(_) => Some(SnapKind::View),
            None => None,
        },
        Subject::Iter(iterator) => match parts.iterators.get(iterator) {
            Some(_) => Some(SnapKind::Iterator),
            None => None,
        },
    }
}

/// The bytes of a view, where they lie together.
fn run_of_given(parts: &Parts, view: usize) -> Result<&[u8], Fault>
    requires { IsWhole parts.now }
    ensures { GivesLent (content_of (spec.snap_of_subject (exporter_of parts.now) (subjects.View view))) result }
{
    let view = given(parts, view)?;
    bytes_in_a_row(parts.bytes.as_slice(), view)
}

/// The bytes of a subject, where they lie together.
///
/// Refused with `UnknownName` where it was never given, with `ValueError` for a released view, and with
/// `TypeError` for a view whose items don't lie one after another and for an iterator.
/// Example: of `Subject::Own` of `b"abc"` it is `Ok(b"abc")`, and of the slice `::2` of a view `Err(Fault::Kind)`.
pub fn run_of_subject(parts: &Parts, subject: Subject) -> Result<&[u8], Fault>
    requires { IsWhole parts.now }
    ensures { GivesLent (content_of (spec.snap_of_subject (exporter_of parts.now) subject)) result }
{
    match subject {
        Subject::Own => Ok(parts.bytes.as_slice()),
        Subject::View(view) => run_of_given(parts, view),
        Subject::Iter(iterator) => match parts.iterators.get(iterator) {
            Some(_) => Err(Fault::Kind),
            None => Err(Fault::UnknownName),
        },
    }
}

/// The bytes of items that lie inside, row by row. They are copied only where they lie apart. It is never refused,
/// and fails only where memory runs out.
/// Example: of the layout `::-2` over `b"abcdef"` it has `b"fdb"`, which is a copy.
pub fn content_lent<'a>(
    alloc: Global,
    bytes: &'a [u8],
    layout: &KeptLayout,
) -> Result<Lent<'a>, Halt>
    requires inside { LiesInside (length bytes.now) layout.now }
    ensures { Lends (Ok (content_of_layout bytes.now layout.now)) result }
{
    if layout.is_contiguous() {
        return Ok(Lent::Lies(run_of(bytes, layout)));
    }
    Ok(Lent::Gathered(content_of(alloc, bytes, layout)?))
}

/// The bytes of a view.
fn content_of_given(alloc: Global, parts: &Parts, view: usize) -> Result<Lent<'_>, Halt>
    requires { IsWhole parts.now }
    ensures { Lends (content_of_named (spec.snap_of_subject (exporter_of parts.now) (subjects.View view))) result }
{
    let view = given(parts, view)?;
    if view.is_released() {
        return Err(Halt::Refused(Fault::Value));
    }
    content_lent(alloc, parts.bytes.as_slice(), view.layout())
}

/// The bytes of a subject. They are copied only where they lie apart.
///
/// Refused with `UnknownName` where it was never given, with `ValueError` for a released view, and with
/// `TypeError` for an iterator.
/// Example: of the view `memoryview(b"abcdef")[::-2]` it has `b"fdb"`, which is a copy.
pub fn content_of_subject(alloc: Global, parts: &Parts, subject: Subject) -> Result<Lent<'_>, Halt>
    requires { IsWhole parts.now }
    ensures { Lends (content_of_named (spec.snap_of_subject (exporter_of parts.now) subject)) result }
{
    match subject {
        Subject::Own => Ok(Lent::Lies(parts.bytes.as_slice())),
        Subject::View(view) => content_of_given(alloc, parts, view),
        Subject::Iter(iterator) => match parts.iterators.get(iterator) {
            Some(_) => Err(Halt::Refused(Fault::Kind)),
            None => Err(Halt::Refused(Fault::UnknownName)),
        },
    }
}

/// What kind of thing something of another exporter is. It is `None` exactly where it was never given.
/// Example: of `Other::Lies { lender, subject: Subject::View(0) }` it is `None` where `lender` has no view.
pub fn kind_of_other(other: Other<'_>) -> Option<SnapKind>
    ensures { result ≡ kind_of_named (names_spec.snap_of_other other.entry) }
{
    match other {
        Other::Snap(snap) => Some(snap.kind),
        Other::Lies { lender, subject } => kind_of_subject(lender, subject),
    }
}

/// The bytes of something of another exporter, where they lie together.
///
/// Refused as those of a subject are.
/// Example: of `Other::Lies { lender, subject: Subject::Own }` it is all bytes of `lender`.
pub fn run_of_other<'a>(other: Other<'a>) -> Result<&'a [u8], Fault>
    requires sound { names_spec.IsSoundOther other }
    ensures { GivesLent (content_of (names_spec.snap_of_other other.entry)) result }
{
    match other {
        Other::Snap(snap) => run_of_snap(snap),
        Other::Lies { lender, subject } => run_of_subject(lender, subject),
    }
}

/// The bytes of something of another exporter. They are copied only where they lie apart.
///
/// Refused as those of a subject are.
/// Example: of `Other::Lies { lender, subject: Subject::Own }` it lends all bytes of `lender`.
pub fn content_of_other<'a>(alloc: Global, other: Other<'a>) -> Result<Lent<'a>, Halt>
    requires sound { names_spec.IsSoundOther other }
    ensures { Lends (content_of_named (names_spec.snap_of_other other.entry)) result }
{
    match other {
        Other::Snap(snap) => Ok(Lent::Lies(content_of_snap(snap)?)),
        Other::Lies { lender, subject } => content_of_subject(alloc, lender, subject),
    }
}

/// What kind of thing a handle names. It is `None` exactly where the handle names nothing that is there.
/// Example: of `Meaning::Nothing` it is `None`.
#[tactic(auto, using(crate::specs::Facts::own_snap, crate::specs::Facts::other_snap))]
pub fn kind_of_meaning(parts: &Parts, meaning: Meaning<'_>) -> Option<SnapKind>
    ensures { result ≡ kind_of_named (snap_in (exporter_of parts.now) (names_spec.meant meaning.entry)) }
{
    match meaning {
        Meaning::Own(subject) => kind_of_subject(parts, subject),
        Meaning::Other(other) => kind_of_other(other),
        Meaning::Nothing => None,
    }
}

/// The bytes of what a handle names, where they lie together.
///
/// Refused with `UnknownName` where it names nothing, else as those of a subject are.
/// Example: of `Meaning::Own(Subject::Own)` it is all bytes of `parts`, and of `Meaning::Nothing` `Err(Fault::UnknownName)`.
#[tactic(auto, using(crate::specs::Facts::own_snap, crate::specs::Facts::other_snap))]
pub fn run_of_meaning<'a>(parts: &'a Parts, meaning: Meaning<'a>) -> Result<&'a [u8], Fault>
    requires whole { IsWhole parts.now }
    requires sound { names_spec.IsSoundMeaning meaning }
    ensures { GivesLent (content_of (snap_in (exporter_of parts.now) (names_spec.meant meaning.entry))) result }
{
    match meaning {
        Meaning::Own(subject) => run_of_subject(parts, subject),
        Meaning::Other(other) => run_of_other(other),
        Meaning::Nothing => Err(Fault::UnknownName),
    }
}

/// The bytes of what a handle names. They are copied only where they lie apart.
///
/// Refused with `UnknownName` where it names nothing, else as those of a subject are.
/// Example: of `Meaning::Own(Subject::Own)` it lends all bytes of `parts`.
#[tactic(auto, using(crate::specs::Facts::own_snap, crate::specs::Facts::other_snap))]
pub fn content_of_meaning<'a>(
    alloc: Global,
    parts: &'a Parts,
    meaning: Meaning<'a>,
) -> Result<Lent<'a>, Halt>
    requires whole { IsWhole parts.now }
    requires sound { names_spec.IsSoundMeaning meaning }
    ensures { Lends (content_of_named (snap_in (exporter_of parts.now) (names_spec.meant meaning.entry))) result }
{
    match meaning {
        Meaning::Own(subject) => content_of_subject(alloc, parts, subject),
        Meaning::Other(other) => content_of_other(alloc, other),
        Meaning::Nothing => Err(Halt::Refused(Fault::UnknownName)),
    }
}
