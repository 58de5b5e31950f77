//! `World`: objects that are named by handles, and commands as values.
use crate::telling::{Told, equal, hears};
use crate::values::int;
use pybuf::{
    ByteInnerNewOptions, Command, ExporterKind, Fault, Made, ReplyList, Value, Verb, World,
};
use std::alloc::Global;
use std::test::Fail;

/// The command that makes a bytearray.
fn new_bytearray(alloc: Global, bytes: &[u8]) -> Made<Command> {
    Ok(Command::New {
        kind: ExporterKind::ByteArray,
        options: ByteInnerNewOptions {
            source: Some(Value::bytes(alloc, bytes)?),
            encoding: None,
            errors: None,
        },
    })
}

/// A command on what a handle names.
fn ask(subject: u64, verb: Verb) -> Command {
    Command::Do { subject, verb }
}

#[test]
fn a_run_has_a_reply_for_each_command(rt: HostRuntime) -> Result<(), Fail> {
    let alloc = rt.alloc();
    let mut world = World::new(alloc);
    let mut replies = ReplyList::new(alloc);
    let commands = [
        new_bytearray(alloc, b"\x01\x02")?,
        ask(0, Verb::View),
        ask(1, Verb::Get { key: int(-1) }),
        ask(0, Verb::Append { value: int(3) }),
    ];
    world.run(&commands, &mut replies)?;
    hears(&rt, replies.get(0), Told::Handle(0));
    hears(&rt, replies.get(1), Told::Handle(1));
    hears(&rt, replies.get(2), Told::Number(2));
    hears(&rt, replies.get(3), Told::Refused(Fault::Buffer));
    let release = ask(1, Verb::Release);
    hears(&rt, Some(&world.step(&release)?), Told::Done);
    equal(&rt, world.handle_count(), 2);
    Ok(())
}
