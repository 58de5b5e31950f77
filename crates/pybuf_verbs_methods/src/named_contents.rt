//! What the handles of a command name, with their bytes from where they lie.
ghost use Rattle.std.specs.Prelude.{◌≡◌, ◌==◌, true};
ghost use Rattle.std.specs.List.{list_any};
ghost use Rattle.pybuf_value.specs.Snaps.{snap_of};
ghost use Rattle.pybuf_state.specs.Answers.{exporter_of, IsWhole};
ghost use Rattle.pybuf_state.specs.Loans.{lents_by, snap_in, snaps_of};
ghost use Rattle.pybuf_state.specs.Names.{IsSoundMeaning, meant};

use pybuf_methods::Contents;
use pybuf_state::{Meaning, Names, Parts, content_of_meaning, kind_of_meaning, run_of_meaning};
use pybuf_value::{Fault, Halt, Lent, SnapKind};
use std::alloc::Global;
use std::marker::Model;

/// Whether a handle stands as far behind the first as its number is above that one's. In handles that were
/// given one after another each does.
fn stands_in_row(handles: &[u64], handle: u64) -> bool
    ensures { result ≡ true → list_any (λ other. other == handle) handles.now ≡ true }
{
    if handles.is_empty() || handle < handles[0] {
        return false;
    }
    let place = handle - handles[0];
    if place >= handles.len() as u64 {
        return false;
    }
    handles[place as usize] == handle
}

/// Whether a handle is one of some. It is looked for where it stands in a row of handles before it is
/// searched for.
fn is_among(handles: &[u64], handle: u64) -> bool
    ensures { result ≡ list_any (λ other. other == handle) handles.now }
{
    if stands_in_row(handles, handle) {
        return true;
    }
    handles.contains(&handle)
}

/// What one of some handles names.
#[tactic(auto, using(crate::proofs::Finding::found_among))]
fn meaning_among<'a, N: Names>(names: &'a N, handles: &[u64], handle: u64) -> Meaning<'a>
    requires { N.fit names.now }
    ensures value { (e : _) → snap_in e (meant result) ≡ snap_of (snaps_of (lents_by e (N.named names.now) handles.now)) handle }
    ensures sound { IsSoundMeaning result }
{
    if !is_among(handles, handle) {
        return Meaning::Nothing;
    }
    names.meaning(handle)
}

/// What some handles of a command name. A clause sees the pairs of each handle and what it is lent as.
/// Example: `Reading::new(parts, names, &[1])` stands for what `h1` names.
#[derive(Drop)]
pub struct Reading<'a, N: Names> {
    parts: &'a Parts,
    names: &'a N,
    handles: &'a [u64],
}

impl<'a, N: Names> Model for Reading<'a, N> {
    ghost use Rattle.std.specs.Prelude.{ℕ, List};
    ghost use Rattle.pybuf_value.specs.declared.snaps.Snap.{Snap};
    ghost use Rattle.pybuf_state.specs.Loans.{lents_by, snaps_of};
    ghost use Rattle.pybuf_state.specs.Answers.{exporter_of, IsWhole};

    ghost Value = { List (ℕ × Snap) };

    ghost view = { λ r. snaps_of (lents_by (exporter_of r.parts.now) (N.named r.names.now) r.handles.now) };

    ghost invariant = { λ r. IsWhole r.parts.now × N.fit r.names.now };
}

impl<'a, N: Names> Reading<'a, N> {
    /// What these handles name. Takes no memory.
    /// Example: of no handles there is no pair.
    pub fn new(parts: &'a Parts, names: &'a N, handles: &'a [u64]) -> Reading<'a, N>
        requires whole { IsWhole parts.now }
        requires fit { N.fit names.now }
        ensures { result ≡ snaps_of (lents_by (exporter_of parts.now) (N.named names.now) handles.now) }
    {
        Reading {
            parts,
            names,
            handles,
        }
    }
}

impl<'a, N: Names> Contents for Reading<'a, N> {
    ghost pairs = { λ names. names };

    fn kind(&self, handle: u64) -> Option<SnapKind> {
        kind_of_meaning(self.parts, meaning_among(self.names, self.handles, handle))
    }

    fn run(&self, handle: u64) -> Result<&[u8], Fault> {
        run_of_meaning(self.parts, meaning_among(self.names, self.handles, handle))
    }

    fn content(&self, alloc: Global, handle: u64) -> Result<Lent<'_>, Halt> {
        content_of_meaning(
            alloc,
            self.parts,
            meaning_among(self.names, self.handles, handle),
        )
    }
}
