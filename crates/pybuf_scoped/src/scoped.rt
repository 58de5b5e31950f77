//! Scoped views by methods of what owns an exporter.
ghost use Rattle.std.specs.Prelude.{◌≡◌, length, IfOk};
ghost use Rattle.pybuf_verbs_views.specs.View.{view_of_own};
ghost use Rattle.pybuf_scoped.specs.declared.stop.Cause.{Cause};
ghost use Rattle.pybuf_scoped.specs.Stops.{Tells, StopsForMemory};
ghost use Rattle.pybuf_scoped.specs.Views.{EndsWith, MakesView};

use crate::group::ViewGroup;
use crate::owner::Owner;
use crate::stop::Stop;
use crate::view::View;
use pybuf_object::{PyByteArray, PyBytes};

/// Methods of a bytearray and of bytes that make scoped views.
/// Example: `array.view()?` is `View::of(&mut array)?`.
pub trait Scoped: Owner {
    /// A view of all bytes, as `View::of`. It is never refused, and stops only where memory runs out.
    /// Example: `array.view()?` of `bytearray(b"abc")` has the items 97, 98 and 99.
    final fn view(&mut self) -> Result<View<'_, Self>, Stop>
    where
        Self: Sized,
        ensures same_reference { IfOk result (λ view. view.owner.ghost_name ≡ self.entry.ghost_name) }
        ensures made { IfOk result (MakesView Self.exporter (view_of_own (Self.exporter self.old))) }
        ensures owner { IfOk result (λ view. EndsWith Self.with self.old (Self.exporter view.owner.now) view.owner.now) }
        ensures memory { StopsForMemory result }
        ensures cause { Tells Cause.Whole result }
    {
        View::of(self)
    }

    /// A group without views, as `ViewGroup::of`. Takes no memory.
    /// Example: `array.views()` lends views that see each other's writes.
    final fn views(&mut self) -> ViewGroup<'_, Self>
    where
        Self: Sized,
        ensures same_reference { result.owner.ghost_name ≡ self.entry.ghost_name }
        ensures owner { result.owner.now ≡ self.old }
        ensures first { result.first ≡ length (Self.exporter self.old).views }
    {
        ViewGroup::of(self)
    }
}

impl Scoped for PyByteArray {}

impl Scoped for PyBytes {}
