//! Bytes behind free room, by a function that is generic in the ledger of what is moved.
ghost use Rattle.std.specs.Prelude.{◌≡◌};

use pybuf_front::FrontBytes;
use pybuf_value::{Made, Steps};
use std::alloc::Global;
use std::marker::Brand;
use std::sync::ledger::{Blank, Ledger};
use std::test::Fail;

/// Adds three bytes at the end, and takes four away at the front.
fn work<L: Ledger>(queue: &mut FrontBytes, blank: Blank) -> Made<()>
    requires name { blank.name ≡ L.name }
    requires parts { blank.parts ≡ L.parts }
    requires one { blank.parts ≡ 1 }
{
    let mut moved = Steps::<L>::new(blank);
    let pushed = queue.push_all(b"def".as_slice(), &mut moved);
    if queue.len() > 4 {
        queue.drop_front(4, &mut moved);
    }
    pushed
}

fn work_by_brand(alloc: Global) -> Made<FrontBytes> {
    let mut queue = FrontBytes::from(Vec::from_slice(alloc, b"abc".as_slice())?);
    work::<Brand>(&mut queue, Blank::new(1))?;
    Ok(queue)
}

#[test]
fn a_queue_has_the_bytes_that_are_left(rt: HostRuntime) -> Result<(), Fail> {
    assert!(rt; work_by_brand(rt.alloc())?.as_slice() == b"ef".as_slice());
    Ok(())
}
