//! Answering: a turn for each try, until one has an answer; then the entry. A turn is lost only to
//! a newer version: a commit came too late, or a version that `old` asked for was cut off. Either
//! way the turn read a newer version.
ghost use Rattle.std.specs.Prelude.{◌≡◌, ◌≤◌, ◌<◌, ◌+◌, IfOk, IsOk, OnErr, length};
ghost use Rattle.std.specs.Prelude.{[], ◌∷◌, ◌++◌, false, true};
ghost use Rattle.client_session.specs.Handles.{GivesBack};
ghost use Rattle.client_session.specs.Turns.{Answered, Ends, EndsPlain, Enters, InStep, IsPlain};
ghost use Rattle.client_session.specs.Turns.{MayTurn};
ghost use Rattle.client_history.specs.Demands.{may_hold_more, is_reading};
ghost use Rattle.client_history.specs.State.{IsReady, IsSettled, OnlyReads, StaysSmall};
ghost use Rattle.client_history.specs.Turns.{Lost};

use crate::given::Given;
use crate::heap::ClientHeap;
use crate::journal::Journal;
use client_history::SETTLED_ROOM;
use doc_model::{Command, Entry, Reply};
use doc_tree::NoMemory;
use run_limits::{MOST_CLIENTS, MOST_COMMANDS};
use std::alloc::Global;
use std::sync::Wait;

/// Gives back what a try holds besides the places that stay.
fn give_back<H: ClientHeap>(held: &mut H)
    ensures settled { IsSettled (H.state held.new) }
    ensures gives_back { GivesBack (H.state held.old) (H.state held.new) }
    ensures lent { H.lent held.new ≡ H.lent held.old }
{
    held.settle();
}

impl Journal {
    /// One try of a command.
    fn try_once<H: ClientHeap, R: Wait>(
        &self,
        alloc: Global,
        rt: &R,
        heap: &mut H,
        command: &Command,
    ) -> Result<Option<Given>, NoMemory>
        requires may { MayTurn self.now (H.state heap.old) }
        requires room { SETTLED_ROOM ≤ (H.state heap.old).room }
        ensures ends { Ends self.now command.now (H.state heap.old) (H.state heap.new) result }
        ensures reads { is_reading command.now ≡ true
            → OnlyReads (H.state heap.old) (H.state heap.new) }
        ensures plain { is_reading command.now ≡ true → EndsPlain result }
        ensures spared { is_reading command.now ≡ false → IsOk result }
        ensures lent { H.lent heap.new ≡ H.lent heap.old }
    {
        match command {
            Command::Put { path, text } => self.put(alloc, rt, heap, path, text),
            Command::Del { path } => self.del(alloc, rt, heap, path),
            Command::Copy { from, to } => self.copy(alloc, rt, heap, from, to),
            Command::Get { path } => self.get(alloc, heap, path),
            Command::List { path } => self.list(alloc, heap, path),
            Command::Size { path } => self.size(heap, path),
            Command::Old { back, path } => self.old(alloc, heap, *back, path),
            Command::DraftPut { path, text } => self.draft_put(rt, heap, path, text),
            Command::DraftGet { path } => self.draft_get(alloc, heap, path),
            Command::Take { path } => self.take(rt, heap, path),
            Command::Publish { path } => self.publish(alloc, rt, heap, path),
            Command::Batch { edits } => self.batch(rt, heap, edits),
        }
    }

    /// A turn: a try, with only the draft's places held before it and after it.
    fn turn<H: ClientHeap, R: Wait>(
        &self,
        alloc: Global,
        rt: &R,
        heap: &mut H,
        command: &Command,
    ) -> Result<Option<Given>, NoMemory>
        requires may { MayTurn self.now (H.state heap.old) }
        requires ready { IsReady (H.state heap.old) }
        ensures ends { Ends self.now command.now (H.state heap.old) (H.state heap.new) result }
        ensures settled { IsSettled (H.state heap.new) }
        ensures reads { is_reading command.now ≡ true
            → OnlyReads (H.state heap.old) (H.state heap.new) }
        ensures plain { is_reading command.now ≡ true → EndsPlain result }
        ensures spared { is_reading command.now ≡ false → IsOk result }
        ensures lent { H.lent heap.new ≡ H.lent heap.old }
    {
        heap.settle();
        let ended = self.try_once(alloc, rt, heap, command);
        give_back(heap);
        ended
    }

    /// Turns, until one is not lost.
    fn turns<H: ClientHeap, R: Wait>(
        &self,
        alloc: Global,
        rt: &R,
        heap: &mut H,
        command: &Command,
    ) -> Result<Given, NoMemory>
        requires may { MayTurn self.now (H.state heap.old) }
        requires ready { IsReady (H.state heap.old) }
        ensures answered { IfOk result (λ given.
            Answered self.now command.now (H.state heap.old) (H.state heap.new) given) }
        ensures lost { OnErr result (Lost (H.state heap.old) (H.state heap.new)) }
        ensures settled { IsSettled (H.state heap.new) }
        ensures reads { is_reading command.now ≡ true
            → OnlyReads (H.state heap.old) (H.state heap.new) }
        ensures plain { is_reading command.now ≡ true
            → IfOk result (λ given. IsPlain given.reply) }
        ensures spared { is_reading command.now ≡ false → IsOk result }
        ensures lent { H.lent heap.new ≡ H.lent heap.old }
    {
        for _ in rt.forever() {
            let ended = self.turn(alloc, rt, heap, command)?;
            match ended {
                Some(given) => return Ok(given),
                None => {}
            }
        }
        unreachable!()
    }

    /// Answers the client's next command, with an entry in its log. A turn that another client cut
    /// short is taken again, from the newer version. All memory is taken before a version is made:
    /// where it runs out nothing is made, and the draft and the log are as before.
    pub fn answer<H: ClientHeap, R: Wait>(
        &mut self,
        alloc: Global,
        rt: &R,
        heap: &mut H,
        command: &Command,
    ) -> Result<Reply, NoMemory>
        requires step { InStep self.old (H.state heap.old) }
        requires ready { IsReady (H.state heap.old) }
        requires few { length self.old.log.entries < MOST_COMMANDS }
        requires client { (1 ≤ self.old.log.client) × (self.old.log.client ≤ MOST_CLIENTS) }
        ensures enters { IfOk result (λ reply. Enters self.old self.new command.now reply
            (H.state heap.old) (H.state heap.new)) }
        ensures step { InStep self.new (H.state heap.new) }
        ensures ready { IsReady (H.state heap.new) }
        ensures limits { self.new.limits ≡ self.old.limits }
        ensures client { self.new.log.client ≡ self.old.log.client }
        ensures last { OnErr result (self.new.last ≡ self.old.last) }
        ensures entries { OnErr result (self.new.log.entries ≡ self.old.log.entries) }
        ensures lost { OnErr result (Lost (H.state heap.old) (H.state heap.new)) }
        ensures settled { IsSettled (H.state heap.old) → IsSettled (H.state heap.new) }
        ensures small { may_hold_more command.now ≡ false
            → StaysSmall (H.state heap.old) (H.state heap.new) }
        ensures reads { is_reading command.now ≡ true
            → OnlyReads (H.state heap.old) (H.state heap.new) }
        ensures plain { is_reading command.now ≡ true → IfOk result IsPlain }
        ensures untouched { is_reading command.now ≡ false
            → OnErr result (heap.new ≡ heap.old) }
        ensures lent { H.lent heap.new ≡ H.lent heap.old }
    {
        self.log.reserve(1)?;
        let copied = command.copy()?;
        let given = self.turns(alloc, rt, heap, command)?;
        let reply = self.enter(copied, given);
        Ok(reply)
    }

    /// Takes an answer into the log, and hands its reply on.
    fn enter(&mut self, command: Command, given: Given) -> Reply
        requires spare { 1 ≤ self.old.log.spare }
        requires few { length self.old.log.entries < MOST_COMMANDS }
        ensures reply { result ≡ given.reply }
        ensures entries { self.new.log.entries ≡ self.old.log.entries ++ record {
          client = self.old.log.client;
          number = length self.old.log.entries + 1;
          command = command;
          reply = given.kept;
          place = given.place;
        } ∷ [] }
        ensures client { self.new.log.client ≡ self.old.log.client }
        ensures last { self.new.last ≡ given.place }
        ensures limits { self.new.limits ≡ self.old.limits }
    {
        let Given { reply, kept, place } = given;
        let number = self.log.entries().len() as u32 + 1;
        let client = self.log.client();
        self.log.push(Entry {
            client,
            number,
            command,
            reply: kept,
            place,
        });
        self.last = place;
        reply
    }
}
