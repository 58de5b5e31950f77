//! How many arguments each method takes.
ghost use Rattle.std.specs.Prelude.{◌≡◌, nat_le, ◌&&◌};
ghost use Rattle.pybuf_command.specs.Arity as spec;

use crate::methods::MethodName;

/// Whether a method takes so many arguments.
///
/// Example: `takes(MethodName::Find, 3)` is `true`, and `takes(MethodName::Find, 4)` is `false`.
pub fn takes(name: MethodName, count: usize) -> bool
    ensures { result ≡ spec.takes name count }
{
    match name {
        MethodName::Add
        | MethodName::Concat
        | MethodName::Mul
        | MethodName::FromHex
        | MethodName::Join
        | MethodName::RemovePrefix
        | MethodName::RemoveSuffix
        | MethodName::Partition
        | MethodName::RPartition
        | MethodName::ZFill => count == 1,
        MethodName::Center | MethodName::LJust | MethodName::RJust | MethodName::Translate => {
            1 <= count && count <= 2
        }
        MethodName::Find
        | MethodName::RFind
        | MethodName::Index
        | MethodName::RIndex
        | MethodName::Count
        | MethodName::StartsWith
        | MethodName::EndsWith => 1 <= count && count <= 3,
        MethodName::MakeTrans => count == 2,
        MethodName::Replace => 2 <= count && count <= 3,
        MethodName::Strip
        | MethodName::LStrip
        | MethodName::RStrip
        | MethodName::ExpandTabs
        | MethodName::SplitLines => count <= 1,
        MethodName::Hex | MethodName::Split | MethodName::RSplit | MethodName::Decode => count <= 2,
        _ => count == 0,
    }
}
