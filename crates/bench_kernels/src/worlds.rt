//! Commands of a world, by which one object's bytes are read beside another's.

use crate::answers::{Answer, mark_of_bytes};
use crate::data::{drawn, drawn_text, widened};
use crate::measuring::Kernel;
use crate::plan::{PLANE, Plan};
use pybuf_command::{ByteInnerNewOptions, Command, ExporterKind};
use pybuf_line::Unread;
use pybuf_value::{ByteList, Fault, Halt, Item, Made, Scalar, Value};
use pybuf_world::{Reply, World};
use std::alloc::Global;

/// What the bytes of two bytearrays are. Handle 0 names the first, handle 1 a view of it, handle 2 the second, and
/// handle 3 a view of that.
#[derive(Clone, Copy)]
pub enum Pair {
    /// Zeros, so many times as many as the plan says, and as many drawn bytes.
    Zeros(usize),
    /// Zeros, and twice as many drawn bytes, of which handle 4 is a view in planes.
    Planes,
    /// The same drawn text in both.
    Texts,
    /// The same numbers: of two bytes in the first, and of four in the second.
    Numbers,
}

/// A command that is carried out again and again in a world of two bytearrays.
#[derive(Drop)]
pub struct Beside {
    world: World,
    command: Command,
}

/// The command that a line spells.
fn command_of(alloc: Global, line: &[u8]) -> Result<Command, Halt> {
    match pybuf_line::command(alloc, line) {
        Ok(command) => Ok(command),
        Err(Unread::NoCommand) => Err(Halt::Refused(Fault::Value)),
        Err(Unread::NoMemory) => Err(Halt::NoMemory),
    }
}

/// Carries out a command whose reply doesn't matter.
fn carry_out(world: &mut World, command: &Command) -> Made<()> {
    world.step(command)?;
    Ok(())
}

/// Carries out the command of a line.
fn follow(alloc: Global, world: &mut World, line: &[u8]) -> Result<(), Halt> {
    let command = command_of(alloc, line)?;
    let done = carry_out(world, &command);
    command.let_go();
    done?;
    Ok(())
}

/// Makes a bytearray of these bytes, which is given the next handle.
fn make(world: &mut World, bytes: Vec<u8>) -> Made<()> {
    let source = Value::One(Scalar::Bytes(ByteList::from_vec(bytes)));
    let command = Command::New {
        kind: ExporterKind::ByteArray,
        options: ByteInnerNewOptions {
            source: Some(source),
            encoding: None,
            errors: None,
        },
    };
    let done = carry_out(world, &command);
    command.let_go();
    done
}

/// Makes the first bytearray and a view of it, and then the second.
fn make_both(
    alloc: Global,
    world: &mut World,
    first: Vec<u8>,
    second: Vec<u8>,
) -> Result<(), Halt> {
    make(world, first)?;
    follow(alloc, world, b"view h0")?;
    make(world, second)?;
    follow(alloc, world, b"view h2")
}

fn make_zeros(alloc: Global, world: &mut World, plan: Plan, times: usize) -> Result<(), Halt> {
    let size = plan.size.saturating_mul(times);
    let second = drawn(alloc, plan.seed, size)?;
    make_both(alloc, world, vec![in alloc; 0u8; size]?, second)
}

fn make_planes(alloc: Global, world: &mut World, plan: Plan) -> Result<(), Halt> {
    let size = plan.size.saturating_mul(2);
    let planes = size / PLANE;
    let line = format!(in alloc; "cast h3 'B' [{planes},256,16]")?;
    let second = drawn(alloc, plan.seed, size)?;
    make_both(alloc, world, vec![in alloc; 0u8; plan.size]?, second)?;
    follow(alloc, world, line.as_bytes())
}

fn make_texts(alloc: Global, world: &mut World, plan: Plan) -> Result<(), Halt> {
    let first = drawn_text(alloc, plan.seed, plan.size)?;
    let second = drawn_text(alloc, plan.seed, plan.size)?;
    make_both(alloc, world, first, second)
}

fn make_numbers(alloc: Global, world: &mut World, plan: Plan) -> Result<(), Halt> {
    let narrow = drawn(alloc, plan.seed, plan.size / 2)?;
    let wide = widened(alloc, narrow.as_slice())?;
    make_both(alloc, world, narrow, wide)
}

fn make_pair(alloc: Global, world: &mut World, plan: Plan, pair: Pair) -> Result<(), Halt> {
    match pair {
        Pair::Zeros(times) => make_zeros(alloc, world, plan, times),
        Pair::Planes => make_planes(alloc, world, plan),
        Pair::Texts => make_texts(alloc, world, plan),
        Pair::Numbers => make_numbers(alloc, world, plan),
    }
}

impl Beside {
    /// A world of two bytearrays, in which the lines of a text were followed, and the command of a line.
    pub fn of(
        alloc: Global,
        plan: Plan,
        pair: Pair,
        lines: &str,
        line: &str,
    ) -> Result<Beside, Halt> {
        let mut world = World::new(alloc);
        make_pair(alloc, &mut world, plan, pair)?;
        for before in lines.as_bytes().split(|byte| *byte == b'\n') {
            if !before.is_empty() {
                follow(alloc, &mut world, before)?;
            }
        }
        let command = command_of(alloc, line.as_bytes())?;
        Ok(Beside { world, command })
    }
}

impl Kernel for Beside {
    fn call(&mut self, _alloc: Global) -> Result<Answer, Halt> {
        match self.world.step(&self.command)? {
            Reply::Ok => Ok(Answer::Nothing),
            Reply::Bytes(bytes) => Ok(Answer::Bytes(bytes.into_vec())),
            Reply::Truth(truth) => Ok(Answer::Number(truth as i128)),
            Reply::Item(Item::One(Scalar::Int(number))) => Ok(Answer::Number(number)),
            _ => Ok(Answer::Refused),
        }
    }

    fn written(&self, _alloc: Global) -> Result<i128, Halt> {
        match self.world.exporters().first() {
            Some(first) => Ok(mark_of_bytes(first.bytes())),
            None => Ok(-1),
        }
    }
}
