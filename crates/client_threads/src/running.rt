//! A client from its beginning to its end, on this thread.
ghost use Rattle.std.specs.Prelude.{◌≡◌, ◌≤◌, length};
ghost use Rattle.beside_collector.specs.Scripts.{script_of};
ghost use Rattle.client_threads.specs.Clients.{IsDone, IsReady};

use crate::answering::answer_all;
use crate::clients::Client;
use beside_collector::{come_in, leave, script_at};
use client_history::Documents;
use client_run::Limits;
use doc_model::Command;
use free_cells::FreeQueue;
use heap_table::CellHeap;
use mutator_threads::Worker;
use outside::Gate;
use run_limits::MOST_COMMANDS;
use std::alloc::Global;
use std::sync::Wait;

/// Answers a client's script. Its mutator comes in before and is over afterwards. The limits are
/// those that its session was made with: only contracts read them.
pub fn run_client<'x, R: Wait, G: Gate>(
    alloc: Global,
    rt: &R,
    gate: &G,
    heap: &'x CellHeap<Documents>,
    queue: &'x FreeQueue,
    scripts: &[Vec<Command>],
    limits: Limits,
    number: u32,
    client: Worker<Documents, Client>,
) -> Worker<Documents, Client>
    requires keep { heap.now.shape.setting ≡ limits.keep }
    requires short { length (script_of scripts.now number) ≤ MOST_COMMANDS }
    requires ready { IsReady heap.now queue.now limits number client }
    ensures done { IsDone heap.now limits scripts.now number result }
{
    let _ = limits;
    let Worker { seat, pass, own } = client;
    let Client { mut session, .. } = own;
    let script = script_at(scripts, number);
    let mut hints = queue.hints(pass);
    let mut m = come_in(heap, seat);
    let whole = answer_all(alloc, rt, gate, &mut hints, &mut m, &mut session, script);
    Worker {
        seat: leave(m),
        pass: hints.into_pass(),
        own: Client {
            session,
            failed: !whole,
        },
    }
}
