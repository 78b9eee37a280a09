//! A client's commands on its mutator, one after the other.
//!
//! Between two commands the mutator answers handshakes, also while the gate keeps its client
//! waiting: otherwise the collector would wait for it.
ghost use Rattle.std.specs.Prelude.{◌≡◌, ◌≤◌, ◌<◌, [], length, true};
ghost use Rattle.client_run.specs.Answers.{IsSameClient};
ghost use Rattle.client_run.specs.Own.{MayAnswer};
ghost use Rattle.client_threads.specs.Going.{Answers, Waits, Went, answered};
ghost use Rattle.mutator_seat.specs.Bound.{Bound};
ghost use Rattle.version_rule.specs.Pass.{Pass};

use client_history::Documents;
use client_run::Session;
use doc_model::Command;
use free_cells::Hints;
use mutator_seat::Mutator;
use outside::Gate;
use run_limits::MOST_COMMANDS;
use std::alloc::Global;
use std::sync::Wait;
use std::thread;

/// Answers a handshake, if one is asked for.
fn handshake(m: &mut Mutator<'_, Documents>)
    requires inside { m.old.seat.me.presence.inside ≡ true }
    ensures waits { Waits m.old m.new }
{
    let _ = m.answer();
}

/// Waits until the gate lets the command begin. Between two questions other threads may run.
pub fn await_gate<R: Wait, G: Gate>(
    rt: &R,
    gate: &G,
    m: &mut Mutator<'_, Documents>,
    client: u32,
    number: u32,
)
    requires inside { m.old.seat.me.presence.inside ≡ true }
    ensures waits { Waits m.old m.new }
{
    for _ in rt.forever() {
        handshake(m);
        if gate.go(client, number) {
            return;
        }
        thread::yield_now();
    }
    unreachable!()
}

/// Answers the next command, unless memory runs out.
fn answer_next<'h, R: Wait>(
    alloc: Global,
    rt: &R,
    hints: &mut Hints<'h>,
    m: &mut Mutator<'h, Documents>,
    session: &mut Session,
    command: &Command,
) -> bool
    requires may { MayAnswer session.old m.old }
    requires few { length session.old.journal.log.entries < MOST_COMMANDS }
    ensures went { Went (answered result command.now) session.old m.old session.new m.new }
{
    match session.answer(alloc, rt, hints, m, command) {
        Ok(_reply) => true,
        Err(_) => false,
    }
}

/// Answers the command with this number, when the gate lets it begin.
fn take_turn<'h, R: Wait, G: Gate>(
    alloc: Global,
    rt: &R,
    gate: &G,
    hints: &mut Hints<'h>,
    m: &mut Mutator<'h, Documents>,
    session: &mut Session,
    number: u32,
    command: &Command,
) -> bool
    requires may { MayAnswer session.old m.old }
    requires few { length session.old.journal.log.entries < MOST_COMMANDS }
    ensures went { Went (answered result command.now) session.old m.old session.new m.new }
{
    let client = session.log().client();
    await_gate(rt, gate, m, client, number);
    let answered = answer_next(alloc, rt, hints, m, session, command);
    if answered {
        gate.done(client, number);
    }
    answered
}

/// Takes memory for so many entries of the log at once, if there is enough; otherwise the log grows
/// as it has to.
fn reserve_entries(session: &mut Session, entries: usize)
    ensures may { (m : Bound Pass) → MayAnswer session.old m → MayAnswer session.new m }
    ensures same { (m : Bound Pass) → IsSameClient session.old m session.new m }
    ensures entries { session.new.journal.log.entries ≡ session.old.journal.log.entries }
{
    let _refused = session.journal.log.reserve(entries);
}

/// Answers the commands of a script, up to the first for which memory runs out.
pub(crate) fn answer_all<'h, R: Wait, G: Gate>(
    alloc: Global,
    rt: &R,
    gate: &G,
    hints: &mut Hints<'h>,
    m: &mut Mutator<'h, Documents>,
    session: &mut Session,
    script: &[Command],
) -> bool
    requires may { MayAnswer session.old m.old }
    requires none { session.old.journal.log.entries ≡ [] }
    requires short { length script.now ≤ MOST_COMMANDS }
    ensures answers { Answers result script.now session.old m.old session.new m.new }
{
    reserve_entries(session, script.len());
    for (index, command) in script.iter().enumerate() {
        let number = index as u32 + 1;
        if !take_turn(alloc, rt, gate, hints, m, session, number, command) {
            return false;
        }
    }
    true
}
