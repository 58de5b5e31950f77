//! The state in which a part of a history begins.
ghost use Rattle.std.specs.Prelude.{[]};
ghost use Rattle.pybuf_command.specs.declared.kinds.ExporterKind.TheVariants as exporter_kind;
ghost use Rattle.pybuf_state.specs.Exporter.{Exporter, new_exporter};

use std::marker::Brand;

/// The state of an exporter in which a part of its history begins, for clauses and proofs alone. `Brand` stands for
/// the state that a proof picks at a call, as it does for the ledger.
/// Example: where `L` is `Brand`, `PartExporter::<L>::start_from` of a state is called with that state as `opening`.
pub trait Begun {
    ghost opening: { Exporter };
}

impl Begun for Brand {
    ghost opening = { new_exporter exporter_kind.Bytes [] };
}
