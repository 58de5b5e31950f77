//! Shapes that agree.
ghost use Rattle.std.specs.Prelude.{◌≡◌, ◌==◌, length};
ghost use Rattle.std.specs.List.{list_any};
ghost use Rattle.pybuf_desc.specs.Descriptor.{shape_of};
ghost use Rattle.pybuf_equality.specs.Equality.{shapes_agree};

/// Whether the shapes of two views agree: they have the same entries, from the first dimension on,
/// and where both have none the rest is ignored.
pub(crate) fn dims_agree(dims: &[(usize, isize, isize)], others: &[(usize, isize, isize)]) -> bool
    requires { length dims.now ≡ length others.now }
    ensures { result ≡ shapes_agree (shape_of dims.now) (shape_of others.now) }
{
    for k in 0..dims.len() {
        if dims[k].0 != others[k].0 {
            return false;
        }
        if dims[k].0 == 0 {
            return true;
        }
    }
    true
}

/// The same of a view and a shape.
pub(crate) fn entries_agree(dims: &[(usize, isize, isize)], shape: &[usize]) -> bool
    requires { length dims.now ≡ length shape.now }
    ensures { result ≡ shapes_agree (shape_of dims.now) shape.now }
{
    for k in 0..dims.len() {
        if dims[k].0 != shape[k] {
            return false;
        }
        if shape[k] == 0 {
            return true;
        }
    }
    true
}
