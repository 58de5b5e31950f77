//! A small interpreter's objects of bytes, over a world.
ghost use Rattle.std.specs.Prelude.{◌≡◌, ◌<◌, ℕ, map, take, length, slice_get, IfOk, OnOk, OnErr};
ghost use Rattle.pybuf_command.specs.declared.worlds.Reply.TheVariants as replies;
ghost use Rattle.pybuf_value.specs.declared.faults.Fault as faults;
ghost use Rattle.example_users.specs.Program.{command_of};

use pybuf::{
    ByteInnerNewOptions, ByteList, Command, ExporterKind, Made, Reply, ReplyList, Scalar, Text,
    Value, Verb, World, handles_stay, refusals_change_nothing, runs_stay_sound,
};
use std::alloc::Global;
use std::marker::Model;

/// A statement of a program. An object is named by its handle: how many were made before it.
#[derive(Debug, Drop)]
pub enum Statement {
    /// `bytearray(bytes)`
    ByteArray(ByteList),
    /// `memoryview(object)`
    MemoryView(u64),
    /// `object.cast(format)`
    Cast(u64, Text),
    /// `object[index]`
    GetItem(u64, i128),
    /// `object[index] = value`
    SetItem(u64, i128, i128),
    /// `object.append(value)`
    Append(u64, i128),
    /// `bytes(object)`
    Bytes(u64),
    /// `object.release()`
    Release(u64),
}

/// The command that a statement is.
fn command(statement: Statement) -> Command
    ensures { result ≡ command_of statement }
{
    let (subject, verb) = match statement {
        Statement::ByteArray(bytes) => {
            let kind = ExporterKind::ByteArray;
            let options = ByteInnerNewOptions {
                source: Some(Value::One(Scalar::Bytes(bytes))),
                encoding: None,
                errors: None,
            };
            return Command::New { kind, options };
        }
        Statement::MemoryView(object) => (object, Verb::View),
        Statement::Cast(object, format) => {
            let (format, shape) = (Value::One(Scalar::Text(format)), None);
            (object, Verb::Cast { format, shape })
        }
        Statement::GetItem(object, key) => (object, Verb::Get { key: key.into() }),
        Statement::SetItem(object, key, value) => {
            let (key, value) = (Value::from(key), Value::from(value));
            (object, Verb::Set { key, value })
        }
        Statement::Append(object, byte) => (object, Verb::Append { value: byte.into() }),
        Statement::Bytes(object) => (object, Verb::ToBytes { order: None }),
        Statement::Release(object) => (object, Verb::Release),
    };
    Command::Do { subject, verb }
}

/// The commands that statements are.
fn commands(alloc: Global, program: Vec<Statement>) -> Made<Vec<Command>>
    ensures { IfOk result (λ commands. commands.items ≡ map command_of program.items) }
{
    let mut commands = Vec::with_capacity(alloc, program.len())?;
    for statement in program {
        commands.push(command(statement))?;
    }
    Ok(commands)
}

/// An interpreter with its objects. A clause sees the world of these.
#[derive(Debug, Drop)]
pub struct Interpreter {
    world: World,
    alloc: Global,
}

impl Model for Interpreter {
    ghost use Rattle.pybuf_world.specs.World.{World};
    ghost use Rattle.example_users.specs.Program.{IsMade};

    ghost Value = { World };

    ghost view = { λ interpreter. interpreter.world };

    ghost invariant = { λ interpreter. IsMade interpreter.world };
}

impl Interpreter {
    ghost use Rattle.pybuf_world.specs.World.{empty_world, wstep, replies_of, world_after_all};
    ghost use Rattle.pybuf_world.specs.Sound.{StaysSound};

    /// An interpreter without objects. Takes no memory.
    pub fn new(alloc: Global) -> Interpreter
        ensures { result ≡ empty_world }
    {
        Interpreter {
            world: World::new(alloc),
            alloc,
        }
    }

    /// Carries out a statement, and answers it. A refusal is an answer and changes nothing, and every object
    /// keeps its name. Where memory runs out, nothing is changed.
    pub fn step(&mut self, statement: Statement) -> Made<Reply>
        ensures answer { IfOk result (λ reply. wstep self.old (command_of statement) ≡ (self.new, reply)) }
        ensures refused { IfOk result (λ reply. (fault : faults.Fault) → reply ≡ replies.Refused fault → self.new ≡ self.old) }
        ensures named { IfOk result (λ _. (handle : ℕ) → handle < length self.old.handles → slice_get self.new.handles handle ≡ slice_get self.old.handles handle) }
        ensures err { OnErr result (self.new ≡ self.old) }
    {
        refusals_change_nothing();
        handles_stay();
        self.world.step(&command(statement))
    }

    /// Carries out a program: one answer for each statement, in order. Where memory runs out, its first
    /// statements were carried out.
    ///
    /// After each statement every byte of each item of an unreleased view lies inside its bytearray, which is as
    /// long as when the view was made.
    pub fn run(&mut self, program: Vec<Statement>) -> Made<ReplyList>
        ensures answers { IfOk result (λ answers. answers ≡ replies_of self.old (map command_of program.items)) }
        ensures one_each { IfOk result (λ answers. length answers ≡ length program.items) }
        ensures world { OnOk result (self.new ≡ world_after_all self.old (map command_of program.items)) }
        ensures stopped { OnErr result ((count : ℕ) × (self.new ≡ world_after_all self.old (take count (map command_of program.items)))) }
        ensures sound { StaysSound self.old (map command_of program.items) }
    {
        runs_stay_sound();
        let commands = commands(self.alloc, program)?;
        let mut answers = ReplyList::new(self.alloc);
        self.world.run(commands.as_slice(), &mut answers)?;
        Ok(answers)
    }
}
