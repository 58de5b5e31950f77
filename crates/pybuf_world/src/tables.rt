//! What is kept of a world, and the work on it.
ghost use Rattle.std.specs.Prelude.{◌≡◌, ◌<◌, ◌+◌, ◌++◌, [], ◌∷◌, slice_get, slice_index, length, IfOk, OnOk, OnErr, vec_len, vec_capacity};
ghost use Rattle.std.specs.Prelude.{true, false};
ghost use Rattle.pybuf_world.specs.World.{has_view, GivesOrRefuses};
ghost use Rattle.pybuf_value.specs.Halting.{outcome_of, GivesOutcome};
ghost use Rattle.pybuf_value.specs.Snaps.{content_of_named};
ghost use Rattle.pybuf_bytes.specs.Options.{bytes_of_options};
ghost use Rattle.pybuf_world.specs.Tables.{OwnersFollow, GainsOwner, with_copy_of};
ghost use Rattle.pybuf_world.specs.Stepping.{step_of_own};

use crate::laws::exporter_laws;
use crate::listing::ExporterList;
use crate::named::{Named, Target};
use crate::others::Others;
use pybuf_bytes::NewOptions;
use pybuf_command::{
    ByteInnerNewOptions, Command, ExporterKind, LocalReply, Reply, ReplyList, Subject, Verb,
    handle_alone, handles_of_options,
};
use pybuf_exporter::{ExporterState, fresh_replies_are_copies, names_alike_do_the_same};
use pybuf_value::{
    ByteList, Fault, Made, NoMemory, Outcome, Snap, SnapKind, SnapList, Tried, push_reserved,
};
use pybuf_verbs_views::release_is_safe;
use std::alloc::Global;
use std::mem;

/// The exporters and the handles of a world. Beside them stands the handle of each exporter, so that
/// it isn't searched for among all handles.
#[derive(Debug, Drop)]
pub struct Tables {
    pub exporters: ExporterList,
    pub handles: Vec<Named>,
    pub owners: Vec<u64>,
    pub alloc: Global,
}

/// The bytes of what a handle names, which are moved out of it.
fn content_of(snap: Option<Snap>) -> Outcome<ByteList>
    ensures { result ≡ outcome_of (content_of_named snap) }
{
    let Some(snap) = snap else {
        return Outcome::Refused(Fault::UnknownName);
    };
    if let SnapKind::Iterator = snap.kind {
        return Outcome::Refused(Fault::Kind);
    }
    if let (SnapKind::View, true) = (snap.kind, snap.released) {
        return Outcome::Refused(Fault::Value);
    }
    Outcome::Done(snap.content)
}

/// The bytes of options of which no handle is read.
fn bytes_without_handles(alloc: Global, options: &ByteInnerNewOptions) -> Tried<ByteList>
    ensures { GivesOutcome (bytes_of_options [] options.now.source options.now.encoding options.now.errors) result }
{
    let nothing = SnapList::new(alloc);
    match options.get_bytes(alloc, &nothing)? {
        Outcome::Done(inner) => Ok(Outcome::Done(ByteList::from_vec(inner.into_vec()))),
        Outcome::Refused(fault) => Ok(Outcome::Refused(fault)),
    }
}

/// Whether what is made of a copy has a view.
fn has_view(kind: SnapKind) -> bool
    ensures { result ≡ has_view kind }
{
    !matches!(kind, SnapKind::ByteArray)
}

/// Adds a name where room was reserved for it and for one more.
fn push_before_last(handles: &mut Vec<Named>, named: Named)
    requires { vec_len handles.old + 1 < vec_capacity handles.old }
    ensures items { handles.new.items ≡ handles.old.items ++ named ∷ [] }
    ensures room { vec_len handles.new < vec_capacity handles.new }
{
    let _ = handles.push(named);
}

impl Tables {
    ghost use Rattle.pybuf_world.specs.Tables.{world_of, AreOwners, IsKept, IsCopyAt, IfFresh, IsFresh, with_made, answered};
    ghost use Rattle.pybuf_world.specs.World as spec;
    ghost use Rattle.pybuf_world.specs.Sound.{StopsAt};

    /// Nothing. Takes no memory.
    pub fn new(alloc: Global) -> Tables
        ensures world { world_of result ≡ spec.empty_world }
        ensures kept { IsKept result }
    {
        Tables {
            exporters: ExporterList::new(alloc),
            handles: Vec::new(alloc),
            owners: Vec::new(alloc),
            alloc,
        }
    }

    /// The number of handles that were given, which is the next one.
    pub fn next_handle(&self) -> u64
        ensures { result ≡ length (world_of self.now).handles }
    {
        self.handles.len() as u64
    }

    /// The number of exporters, which the next one gets.
    fn next_exporter(&self) -> usize
        ensures { result ≡ length (world_of self.now).exporters }
    {
        self.exporters.len()
    }

    /// A new exporter with no view, and its handle.
    fn add_exporter(&mut self, exporter: ExporterState) -> Made<Reply>
        ensures ok { IfOk result (λ r. with_made false (world_of self.old) exporter.exporter ≡ (world_of self.new, r)) }
        ensures err { OnErr result (world_of self.new ≡ world_of self.old) }
        ensures owners { IfOk result (λ r. GainsOwner self.old self.new) }
        ensures owners_kept { OnErr result (self.new.owners.items ≡ self.old.owners.items) }
    {
        let handle = self.next_handle();
        let number = self.next_exporter();
        self.handles.reserve(1)?;
        self.owners.reserve(1)?;
        self.exporters.push(exporter)?;
        push_reserved(&mut self.handles, Named::Exporter(number));
        push_reserved(&mut self.owners, handle);
        Ok(Reply::Handle(handle))
    }

    /// A new exporter with one view, and the handles of both.
    fn add_viewed(&mut self, exporter: ExporterState) -> Made<Reply>
        ensures ok { IfOk result (λ r. with_made true (world_of self.old) exporter.exporter ≡ (world_of self.new, r)) }
        ensures err { OnErr result (world_of self.new ≡ world_of self.old) }
        ensures owners { IfOk result (λ r. GainsOwner self.old self.new) }
        ensures owners_kept { OnErr result (self.new.owners.items ≡ self.old.owners.items) }
    {
        let own = self.next_handle();
        let number = self.next_exporter();
        self.handles.reserve(2)?;
        self.owners.reserve(1)?;
        self.exporters.push(exporter)?;
        push_before_last(&mut self.handles, Named::Exporter(number));
        let view = self.next_handle();
        let named = Named::View {
            exporter: number,
            view: 0,
        };
        push_reserved(&mut self.handles, named);
        push_reserved(&mut self.owners, own);
        Ok(Reply::Pair {
            exporter: own,
            view,
        })
    }

    /// A new exporter and its handle, where the handles of the exporters stay what they are.
    fn add(&mut self, exporter: ExporterState) -> Made<Reply>
        requires { IsKept self.old }
        ensures ok { IfOk result (λ r. spec.with_exporter (world_of self.old) exporter.exporter ≡ (world_of self.new, r)) }
        ensures err { OnErr result (world_of self.new ≡ world_of self.old) }
        ensures owned { AreOwners (world_of self.new) self.new.owners.items }
    {
        match self.add_exporter(exporter) {
            Ok(reply) => Ok(reply),
            Err(NoMemory) => Err(NoMemory),
        }
    }

    /// Whether all of these handles were given.
    fn are_given(&self, handles: &[u64]) -> bool
        ensures { result ≡ spec.are_given (world_of self.now) handles.now }
    {
        let count = self.next_handle();
        handles.iter().all(|handle| *handle < count)
    }

    /// What a handle names, as it stands.
    fn snap_for(&self, handle: u64) -> Made<Option<Snap>>
        ensures { IfOk result (λ snap. snap ≡ spec.snap_for (world_of self.now) handle) }
    {
        let Some(named) = self.handles.get(handle as usize).copied() else {
            return Ok(None);
        };
        let Some(lender) = self.exporters.get(named.exporter()) else {
            return Ok(None);
        };
        lender.snap(self.alloc, named.subject())
    }

    /// The bytes that a new exporter is made of. Those of a handle are copied once, and where no handle
    /// is read none is looked at.
    fn bytes_of(&self, options: &ByteInnerNewOptions) -> Tried<ByteList>
        ensures { IfOk result (λ outcome. outcome ≡ outcome_of (spec.bytes_of_new (world_of self.now) options.now)) }
    {
        match handle_alone(options) {
            Some(handle) => {
                let snap = self.snap_for(handle)?;
                Ok(content_of(snap))
            }
            None => bytes_without_handles(self.alloc, options),
        }
    }

    /// A new exporter of bytes.
    fn make(&mut self, kind: ExporterKind, options: &ByteInnerNewOptions) -> Made<Reply>
        requires { IsKept self.old }
        ensures ok { IfOk result (λ r. spec.step_of_new (world_of self.old) kind options.now ≡ (world_of self.new, r)) }
        ensures err { OnErr result (world_of self.new ≡ world_of self.old) }
        ensures owned { AreOwners (world_of self.new) self.new.owners.items }
    {
        let handles = handles_of_options(self.alloc, options)?;
        if !self.are_given(handles.as_slice()) {
            return Ok(Reply::Refused(Fault::UnknownName));
        }
        match self.bytes_of(options)? {
            Outcome::Done(bytes) => self.add(ExporterState::new(self.alloc, kind, bytes)),
            Outcome::Refused(fault) => Ok(Reply::Refused(fault)),
        }
    }

    /// What the exporter of a target does. It is taken out of the table for the step, and the others are lent
    /// to it. Takes no memory of its own.
    fn local_step(&mut self, target: Target, verb: &Verb) -> Made<LocalReply>
        requires there { target.exporter < length (world_of self.old).exporters }
        ensures ok { IfOk result (λ r. step_of_own (world_of self.old) target verb.now ≡ (world_of self.new, r)) }
        ensures err { OnErr result (world_of self.new ≡ world_of self.old) }
        ensures owners { self.new.owners.items ≡ self.old.owners.items }
        ensures handles { self.new.handles ≡ self.old.handles }
    {
        names_alike_do_the_same();
        let nothing = ExporterState::empty(self.alloc);
        let mut worker = self.exporters.replace(target.exporter, nothing);
        let others = Others {
            exporters: &self.exporters,
            handles: self.handles.as_slice(),
            stepping: target.exporter,
        };
        let answer = worker.carry_out(target.subject, verb, &others);
        self.exporters.put(target.exporter, worker);
        answer
    }

    /// An exporter that is made of the copy of a subject, and the handles of it and of its view, where
    /// it has one.
    fn add_copy(&mut self, exporter: usize, subject: Subject, copy: Snap) -> Made<Reply>
        requires { IsCopyAt (slice_get (world_of self.old).exporters exporter) subject copy }
        ensures ok { IfOk result (λ r. with_copy_of (world_of self.old) exporter subject copy ≡ (world_of self.new, r)) }
        ensures err { OnErr result (world_of self.new ≡ world_of self.old) }
        ensures owners { IfOk result (λ r. GainsOwner self.old self.new) }
        ensures owners_kept { OnErr result (self.new.owners.items ≡ self.old.owners.items) }
    {
        let is_viewed = has_view(copy.kind);
        let Some(holder) = self.exporters.get(exporter) else {
            return Ok(Reply::Refused(Fault::UnknownName));
        };
        let made = holder.exporter_of_copy(self.alloc, subject, copy)?;
        if is_viewed {
            return self.add_viewed(made);
        }
        self.add_exporter(made)
    }

    /// What is replied to a target whose exporter has stepped: a new view or iterator is given a handle,
    /// and a new exporter one for itself and one for its view, where it has one. Only where an exporter is made may
    /// memory run out.
    fn answer(&mut self, target: Target, reply: LocalReply) -> Made<Reply>
        requires room { vec_len self.old.handles < vec_capacity self.old.handles }
        requires owner { slice_index self.old.owners.items target.exporter ≡ spec.handle_of (world_of self.old) target.exporter }
        requires copy { IfFresh reply (IsCopyAt (slice_get (world_of self.old).exporters target.exporter) target.subject) }
        ensures ok { IfOk result (λ r. answered (world_of self.old) target reply ≡ (world_of self.new, r)) }
        ensures err { OnErr result (world_of self.new ≡ world_of self.old) }
        ensures only_fresh { OnErr result (IsFresh reply) }
        ensures owners { IfOk result (λ _. OwnersFollow self.old reply self.new) }
        ensures owners_kept { OnErr result (self.new.owners.items ≡ self.old.owners.items) }
    {
        let exporter = target.exporter;
        let handle = self.handles.len() as u64;
        match reply {
            LocalReply::Ok => Ok(Reply::Ok),
            LocalReply::View(view) => {
                push_reserved(&mut self.handles, Named::View { exporter, view });
                Ok(Reply::Handle(handle))
            }
            LocalReply::Iter(iterator) => {
                push_reserved(&mut self.handles, Named::Iterator { exporter, iterator });
                Ok(Reply::Handle(handle))
            }
            LocalReply::Itself => Ok(Reply::Handle(target.handle)),
            LocalReply::Own => {
                let owner = self.owners.get(exporter).copied().unwrap_or(0);
                Ok(Reply::Handle(owner))
            }
            LocalReply::Item(item) => Ok(Reply::Item(item)),
            LocalReply::Items { shape, items } => Ok(Reply::Items { shape, items }),
            LocalReply::Bytes(bytes) => Ok(Reply::Bytes(bytes)),
            LocalReply::Text(text) => Ok(Reply::Text(text)),
            LocalReply::Shown(text) => Ok(Reply::Shown(text)),
            LocalReply::Truth(truth) => Ok(Reply::Truth(truth)),
            LocalReply::NotImplementedReply => Ok(Reply::NotImplementedReply),
            LocalReply::Numbers(numbers) => Ok(Reply::Numbers(numbers)),
            LocalReply::ByteLists(lists) => Ok(Reply::ByteLists(lists)),
            LocalReply::Stop => Ok(Reply::Stop),
            LocalReply::Fresh(copy) => self.add_copy(exporter, target.subject, copy),
            LocalReply::Refused(fault) => Ok(Reply::Refused(fault)),
        }
    }

    /// What a target does, with the loans by the world as it is.
    fn step_of_target(&mut self, target: Target, verb: &Verb) -> Made<Reply>
        requires kept { IsKept self.old }
        ensures ok { IfOk result (λ r. spec.step_of_target (world_of self.old) target verb.now ≡ (world_of self.new, r)) }
        ensures err { OnErr result (world_of self.new ≡ world_of self.old) }
        ensures owners { IfOk result (λ _. OwnersFollow self.old (step_of_own (world_of self.old) target verb.now).1 self.new) }
        ensures owners_kept { OnErr result (self.new.owners.items ≡ self.old.owners.items) }
    {
        fresh_replies_are_copies();
        let exporter = target.exporter;
        if exporter >= self.exporters.len() {
            return Ok(Reply::Refused(Fault::UnknownName));
        }
        self.handles.reserve(1)?;
        let reply = self.local_step(target, verb)?;
        self.answer(target, reply)
    }

    /// Carries out a command, by which the world stays sound.
    pub fn step(&mut self, command: &Command) -> Made<Reply>
        requires { IsKept self.old }
        ensures ok { IfOk result (λ r. spec.wstep (world_of self.old) command.now ≡ (world_of self.new, r)) }
        ensures err { OnErr result (world_of self.new ≡ world_of self.old) }
        ensures kept { IsKept self.new }
    {
        exporter_laws();
        match command {
            Command::New { kind, options } => self.make(*kind, options),
            Command::Do { subject, verb } => {
                let handle = *subject;
                let (exporter, subject) = match self.handles.get(handle as usize) {
                    Some(Named::Exporter(exporter)) => (*exporter, Subject::Own),
                    Some(Named::View { exporter, view }) => (*exporter, Subject::View(*view)),
                    Some(Named::Iterator { exporter, iterator }) => (
                        *exporter,
                        Subject::Iter(*iterator),
                    ),
                    None => return Ok(Reply::Refused(Fault::UnknownName)),
                };
                let target = Target {
                    handle,
                    exporter,
                    subject,
                };
                self.step_of_target(target, verb)
            }
        }
    }

    /// Carries out the commands in order, and adds a reply for each.
    fn run_onto(&mut self, commands: &[Command], replies: &mut Vec<Reply>) -> Made<()>
        requires { IsKept self.old }
        ensures world { OnOk result (world_of self.new ≡ spec.world_after_all (world_of self.old) commands.now) }
        ensures replies { OnOk result (replies.new.items ≡ replies.old.items ++ spec.replies_of (world_of self.old) commands.now) }
        ensures stopped { OnErr result (StopsAt (world_of self.old) commands.now (world_of self.new) replies.old.items replies.new.items) }
        ensures kept { IsKept self.new }
    {
        for command in commands {
            replies.reserve(1)?;
            let reply = self.step(command)?;
            push_reserved(replies, reply);
        }
        Ok(())
    }

    /// The same, onto a list of replies.
    pub fn run(&mut self, commands: &[Command], replies: &mut ReplyList) -> Made<()>
        requires { IsKept self.old }
        ensures world { OnOk result (world_of self.new ≡ spec.world_after_all (world_of self.old) commands.now) }
        ensures replies { OnOk result (replies.new ≡ replies.old ++ spec.replies_of (world_of self.old) commands.now) }
        ensures stopped { OnErr result (StopsAt (world_of self.old) commands.now (world_of self.new) replies.old replies.new) }
        ensures kept { IsKept self.new }
    {
        let mut answered = mem::replace(replies, ReplyList::new(self.alloc)).into_vec();
        let answer = self.run_onto(commands, &mut answered);
        *replies = ReplyList::from_vec(answered);
        answer
    }

    /// Releases the view that a handle names.
    fn release_named(&mut self, handle: u64) -> Result<(), Fault>
        ensures exact { GivesOrRefuses (spec.released_by (world_of self.old) handle) (world_of self.new) result }
        ensures err { OnErr result (world_of self.new ≡ world_of self.old) }
        ensures owners { self.new.owners.items ≡ self.old.owners.items }
    {
        let named = self.handles.get(handle as usize).copied();
        let Some(Named::View { exporter, view }) = named else {
            return Err(Fault::UnknownName);
        };
        if exporter >= self.exporters.len() {
            return Err(Fault::UnknownName);
        }
        match self.exporters.release_view(exporter, view) {
            Ok(()) => Ok(()),
            Err(fault) => Err(fault),
        }
    }

    /// The same, by which the world stays sound.
    pub fn release(&mut self, handle: u64) -> Result<(), Fault>
        requires { IsKept self.old }
        ensures exact { GivesOrRefuses (spec.released_by (world_of self.old) handle) (world_of self.new) result }
        ensures err { OnErr result (world_of self.new ≡ world_of self.old) }
        ensures kept { IsKept self.new }
    {
        release_is_safe();
        match self.release_named(handle) {
            Ok(()) => Ok(()),
            Err(fault) => Err(fault),
        }
    }
}
