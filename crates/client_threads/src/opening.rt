//! The opening of a store's heap, with a worker for each client.
ghost use Rattle.std.specs.Prelude.{◌<◌, ◌≤◌, IfOk};
ghost use Rattle.client_threads.specs.Clients.{IsNewClient};
ghost use Rattle.client_threads.specs.Opened.{IsOpenStore};

use crate::clients::Client;
use cell_words::GREATEST_POSITION;
use client_history::{Documents, LEAST_MINOR, PLACES_BESIDES, PLACES_PER_RECORD};
use client_run::{Limits, Session};
use collector::NoMemory;
use mutator_threads::{Opened, open};
use run_limits::MOST_CLIENTS;
use std::alloc::Global;
use std::sync::Wait;
use std::thread::Threads;
use version_store::opening_rows;

/// A client for the mutator with this number. Its own number is one more.
pub fn new_client(alloc: Global, number: u32, limits: Limits) -> Result<Client, NoMemory>
    requires few { number < MOST_CLIENTS }
    requires minor { (LEAST_MINOR ≤ limits.minor) × (limits.minor ≤ 262_144) }
    ensures made { IfOk result (λ client. IsNewClient limits number client) }
{
    let session = Session::new(alloc, number + 1, limits)?;
    Ok(Client {
        session,
        failed: false,
    })
}

/// Opens a heap for so many clients: the first has the mutator with number 0.
pub fn open_store<R: Threads + Wait + Sync>(
    alloc: Global,
    rt: &R,
    clients: u32,
    cells: u32,
    limits: Limits,
) -> Result<Opened<Documents, Client>, NoMemory>
    requires few { clients ≤ MOST_CLIENTS }
    requires cells { (64 ≤ cells) × (cells ≤ GREATEST_POSITION) }
    requires minor { (LEAST_MINOR ≤ limits.minor) × (limits.minor ≤ 262_144) }
    requires keep { (1 ≤ limits.keep) × (limits.keep ≤ 100) }
    ensures opened { IfOk result (λ made. IsOpenStore cells clients limits made) }
{
    let rows = opening_rows();
    let own = move |number: u32| -> Result<Client, NoMemory>
        requires { (number < MOST_CLIENTS) × (LEAST_MINOR ≤ limits.minor)
            × (limits.minor ≤ 262_144) }
        ensures { IfOk result (λ client. IsNewClient limits number client) }
    { new_client(alloc, number, limits) };
    let keep = u64::from(limits.keep);
    let room = PLACES_PER_RECORD * limits.minor + PLACES_BESIDES;
    open(alloc, rt, cells, clients, keep, &rows, room, own)
}
