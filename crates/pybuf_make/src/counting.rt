//! The run of a script, counted as it goes. No list of commands is kept and none of replies.
ghost use Rattle.std.specs.Prelude.{◌≡◌, ◌<◌, ◌≤◌, ◌+◌, ◌*◌, ◌^◌, [], ◌∷◌, IfOk, OnOk};
ghost use Rattle.std.specs.List.{flat_map, range_with_len};
ghost use Rattle.pybuf_make.specs.Script as spec;
ghost use Rattle.pybuf_make.specs.Summary.{is_refusal, summary};
ghost use Rattle.pybuf_make.specs.Counting.{HasRun};

use crate::commands::{append, ask, new_bytearray, pop_first, turn_round};
use crate::telling::told;
use pybuf_command::{Command, Reply, Verb};
use pybuf_value::{Made, NoMemory};
use pybuf_world::World;
use std::alloc::Global;

/// A run in a world: how many commands were carried out, and how many of them were refused.
#[derive(Debug, Drop)]
pub struct Counted {
    pub world: World,
    pub lines: u64,
    pub refused: u64,
}

/// Whether a reply is a refusal.
fn is_refusal(reply: &Reply) -> bool
    ensures { result ≡ is_refusal reply.now }
{
    matches!(reply, Reply::Refused(_))
}

/// Carries out a command, and counts it and its reply.
fn carry_out(run: &mut Counted, command: Command) -> Made<()>
    requires room { run.old.lines < 2 ^ 32 }
    requires within { run.old.refused ≤ run.old.lines }
    ensures ran { OnOk result (HasRun run.old (command ∷ []) run.new) }
    ensures room { OnOk result (run.new.lines ≤ run.old.lines + 1) }
    ensures within { OnOk result (run.new.refused ≤ run.new.lines) }
{
    let reply = run.world.step(&command);
    command.let_go();
    match reply {
        Ok(reply) => {
            run.lines += 1;
            if is_refusal(&reply) {
                run.refused += 1;
            }
            Ok(())
        }
        Err(NoMemory) => Err(NoMemory),
    }
}

/// Takes out the first byte in every fourth round.
fn pop_at(run: &mut Counted, k: u16) -> Made<()>
    requires room { run.old.lines < 2 ^ 32 }
    requires within { run.old.refused ≤ run.old.lines }
    ensures ran { OnOk result (HasRun run.old (spec.popped k) run.new) }
    ensures room { OnOk result (run.new.lines ≤ run.old.lines + 1) }
    ensures within { OnOk result (run.new.refused ≤ run.new.lines) }
{
    if k % 4 == 3 {
        return carry_out(run, pop_first());
    }
    Ok(())
}

/// Reads the bytes through two views, and adds a byte while they are there.
fn view_by(run: &mut Counted, first: u64, second: u64) -> Made<()>
    requires room { run.old.lines < 2 ^ 31 }
    requires within { run.old.refused ≤ run.old.lines }
    ensures ran { OnOk result (HasRun run.old (spec.viewed_by first second) run.new) }
    ensures room { OnOk result (run.new.lines ≤ run.old.lines + 6) }
    ensures within { OnOk result (run.new.refused ≤ run.new.lines) }
{
    carry_out(run, ask(0, Verb::View))?;
    carry_out(run, turn_round(first))?;
    carry_out(run, ask(second, Verb::ToBytes { order: None }))?;
    carry_out(run, append(0))?;
    carry_out(run, ask(first, Verb::Release))?;
    carry_out(run, ask(second, Verb::Release))
}

/// So it does in every sixteenth round.
fn view_at(run: &mut Counted, k: u16) -> Made<()>
    requires room { run.old.lines < 2 ^ 31 }
    requires within { run.old.refused ≤ run.old.lines }
    ensures ran { OnOk result (HasRun run.old (spec.viewed k) run.new) }
    ensures room { OnOk result (run.new.lines ≤ run.old.lines + 6) }
    ensures within { OnOk result (run.new.refused ≤ run.new.lines) }
{
    if k % 16 == 15 {
        let time = u64::from(k / 16);
        return view_by(run, 2 * time + 1, 2 * time + 2);
    }
    Ok(())
}

/// Runs a round.
fn round(run: &mut Counted, k: u16) -> Made<()>
    requires room { run.old.lines < 2 ^ 30 }
    requires within { run.old.refused ≤ run.old.lines }
    ensures ran { OnOk result (HasRun run.old (spec.round k) run.new) }
    ensures room { OnOk result (run.new.lines ≤ run.old.lines + 8) }
    ensures within { OnOk result (run.new.refused ≤ run.new.lines) }
{
    carry_out(run, append((7 * u64::from(k) + 3) % 256))?;
    pop_at(run, k)?;
    view_at(run, k)
}

/// Runs the rounds.
fn rounds(run: &mut Counted, n: u16) -> Made<()>
    requires room { run.old.lines ≤ 1 }
    requires within { run.old.refused ≤ run.old.lines }
    ensures ran { OnOk result (HasRun run.old (flat_map spec.round (range_with_len 0 n)) run.new) }
    ensures room { OnOk result (run.new.lines ≤ 1 + 8 * n) }
    ensures within { OnOk result (run.new.refused ≤ run.new.lines) }
{
    'running: for k in 0..n {
        round(run, k)?;
    }
    Ok(())
}

/// Makes the script of a number, runs it in a new world, and tells of its run: how many commands it
/// has, how many of them were refused, how many handles were given, how long the bytearray is at the
/// end, and the sum of its bytes. Each command is made where it is carried out, and let go.
///
/// Example: of 1 it gives the lines `lines 3`, `refused 0`, `handles 1`, `length 1` and `sum 3`.
pub fn make_summary(alloc: Global, n: u16) -> Made<Vec<u8>>
    ensures { IfOk result (λ text. text.items ≡ summary n) }
{
    let mut run = Counted {
        world: World::new(alloc),
        lines: 0,
        refused: 0,
    };
    carry_out(&mut run, new_bytearray(alloc))?;
    rounds(&mut run, n)?;
    carry_out(&mut run, ask(0, Verb::ToBytes { order: None }))?;
    told(alloc, run.lines, run.refused, &run.world)
}
