//! What is told of a run.
ghost use Rattle.std.specs.Prelude.{◌≡◌, ◌++◌, IfOk, OnOk};
ghost use Rattle.std.specs.List.{sum};
ghost use Rattle.pybuf_make.specs.Summary as spec;

use itoa::Buffer;
use pybuf_value::Made;
use pybuf_world::World;
use std::alloc::Global;

/// The bytes of the first exporter of a world, where there is one.
fn first_bytes(world: &World) -> &[u8]
    ensures { result.now ≡ spec.first_bytes world.now }
{
    match world.exporters() {
        [first, ..] => first.bytes(),
        [] => &[],
    }
}

/// The sum of bytes.
fn sum(bytes: &[u8]) -> u128
    ensures { result ≡ sum bytes.now }
{
    bytes.iter().map(|&b| u128::from(b)).sum()
}

/// Adds a line of a word and a number.
fn push_counted(out: &mut Vec<u8>, word: &str, number: u128) -> Made<()>
    ensures { OnOk result (out.new.items ≡ out.old.items ++ spec.counted word.now number) }
{
    let mut buffer = Buffer::new();
    out.extend_from_slice(word.as_bytes())?;
    out.extend_from_slice(b" ")?;
    out.extend_from_slice(buffer.format(number).as_bytes())?;
    out.extend_from_slice(b"\n")?;
    Ok(())
}

/// The five lines on a run.
pub fn told(alloc: Global, lines: u64, refused: u64, world: &World) -> Made<Vec<u8>>
    ensures { IfOk result (λ text. text.items ≡ spec.told lines refused world.now) }
{
    let bytes = first_bytes(world);
    let mut text = Vec::new(alloc);
    push_counted(&mut text, "lines", u128::from(lines))?;
    push_counted(&mut text, "refused", u128::from(refused))?;
    push_counted(&mut text, "handles", u128::from(world.handle_count()))?;
    push_counted(&mut text, "length", bytes.len() as u128)?;
    push_counted(&mut text, "sum", sum(bytes))?;
    Ok(text)
}
