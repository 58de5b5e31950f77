//! What holds of locked exporters that have a view.
ghost use Rattle.pybuf_locked.specs.Laws.{CommandsKeepViews, ViewedExportersKeepTheirLength};

/// Each command keeps the invariant `ViewMadeAt`: no command takes a view away, or changes when it was made.
/// Example: after `release` of the view 0 of `b"abc"` that view was still made when the exporter had three bytes.
pub fn commands_keep_views()
    ensures { CommandsKeepViews }
{
    pybuf_exporter::lengths_stay();
}

/// An exporter of which `ViewMadeAt` holds has that length, as long as the view is unreleased.
/// Example: while the view 0 of `b"abc"` is unreleased, whoever takes the lock finds three bytes.
pub fn viewed_exporters_keep_their_length()
    ensures { ViewedExportersKeepTheirLength }
{}
