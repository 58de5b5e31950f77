//! The exporters of a world that are lent to the one that steps.
ghost use Rattle.std.specs.Prelude.{◌≡◌, List, Some, slice_get};
ghost use Rattle.pybuf_state.specs.Loans.{given_loan};
ghost use Rattle.pybuf_state.specs.Names.{IsSoundMeaning, meant};
ghost use Rattle.pybuf_world.specs.declared.named.Named.{Named};
ghost use Rattle.pybuf_world.specs.Listing.{lent_exporter};
ghost use Rattle.pybuf_world.specs.Stepping.{named_to};
ghost use Rattle.pybuf_world.specs.World.{loan_of_name, loan_of_other};

use crate::listing::ExporterList;
use crate::named::Named;
use pybuf_command::Subject;
use pybuf_exporter::ExporterState;
use pybuf_state::{Meaning, Names};

/// The exporters of a world, of which one steps and is taken out, and what their handles name.
#[derive(Debug, Drop)]
pub struct Others<'a> {
    pub exporters: &'a ExporterList,
    pub handles: &'a [Named],
    pub stepping: usize,
}

/// What a handle names.
fn name_of(handles: &[Named], handle: u64) -> Option<Named>
    ensures { result ≡ slice_get handles.now handle }
{
    handles.get(handle as usize).copied()
}

/// The exporter of a number.
fn lender_of(exporters: &ExporterList, number: usize) -> Option<&ExporterState>
    ensures { lent_exporter result ≡ slice_get exporters.now number }
{
    exporters.get(number)
}

/// What another exporter than the one that steps is lent as.
#[tactic(auto, using(crate::proofs::Among::snap_given))]
fn meaning_of_other<'a>(lender: Option<&'a ExporterState>, subject: Subject) -> Meaning<'a>
    ensures meant { meant result ≡ given_loan (Some (loan_of_other (lent_exporter lender.entry) subject)) }
    ensures sound { IsSoundMeaning result }
{
    match lender {
        Some(lender) => Meaning::Other(lender.lent(subject)),
        None => Meaning::Nothing,
    }
}

/// What a name is lent as.
#[tactic(auto, using(crate::proofs::Among::own_given))]
fn meaning_of_name(exporters: &ExporterList, stepping: usize, named: Named) -> Meaning<'_>
    ensures meant { (handles : List Named) → meant result ≡ given_loan (Some (loan_of_name (record { exporters = exporters.now; handles = handles }) stepping (Some named))) }
    ensures sound { IsSoundMeaning result }
{
    if named.exporter() == stepping {
        return Meaning::Own(named.subject());
    }
    let lender = lender_of(exporters, named.exporter());
    meaning_of_other(lender, named.subject())
}

impl<'a> Names for Others<'a> {
    ghost named = { λ others. named_to (record { exporters = others.exporters.now; handles = others.handles.now }) others.stepping };

    ghost fit = { λ _. Unit {0} };

    fn meaning(&self, handle: u64) -> Meaning<'_> {
        match name_of(self.handles, handle) {
            Some(named) => meaning_of_name(self.exporters, self.stepping, named),
            None => Meaning::Nothing,
        }
    }
}
