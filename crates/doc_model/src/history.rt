//! The clients' logs as one list, and whether a list of entries is a history of the store.
ghost use Rattle.std.specs.Prelude.{◌≡◌, ◌≤◌, ◌++◌, ◌↔◌, IfOk, IsTrue, OnOk, IsPermutation};
ghost use Rattle.std.specs.Prelude.{IsSortedByKey, length};
ghost use Rattle.doc_model.specs.History.{IsLegal};
ghost use Rattle.doc_model.specs.Merge.{IsMerge, entry_order};
ghost use Rattle.doc_model.specs.Store.{opening};
ghost use Rattle.run_limits.specs.declared.TheConstants.{MOST_COMMANDS};

use crate::NoMemory;
use crate::command::Entry;
use crate::log::Log;
use crate::store::PlainStore;
use std::alloc::Global;

/// All entries of the logs, by place. At one place the entry that made the version comes first, and
/// the others by client and then by number.
pub fn merge(alloc: Global, logs: &[Log]) -> Result<Vec<Entry>, NoMemory>
    ensures { IfOk result (λ merged. IsMerge logs.now merged.items) }
{
    let mut all = Vec::new(alloc);
    for log in logs {
        add_copies(&mut all, log.entries())?;
    }
    sort_by_place(&mut all)?;
    Ok(all)
}

fn add_copies(all: &mut Vec<Entry>, entries: &[Entry]) -> Result<(), NoMemory>
    ensures { OnOk result (all.new.items ≡ all.old.items ++ entries.now) }
{
    for entry in entries {
        all.push(entry.copy()?)?;
    }
    Ok(())
}

fn sort_by_place(entries: &mut Vec<Entry>) -> Result<(), NoMemory>
    ensures same { IsPermutation entries.old.items entries.new.items }
    ensures sorted { OnOk result (IsSortedByKey (λ e. e) entry_order entries.new.items) }
{
    entries.sort_by_key(|e| (e.place, !e.reply.is_ok(), e.client, e.number))
}

/// Whether a store that answers the commands in this order gives each entry its reply and its
/// place.
pub fn is_legal(
    alloc: Global,
    entries: &[Entry],
    clients: u32,
    keep: u32,
    versions: u32,
) -> Result<bool, NoMemory>
    requires clients { (1 ≤ clients) × (clients ≤ 64) }
    requires keep { (1 ≤ keep) × (keep ≤ 100) }
    requires versions { (1 ≤ versions) × (versions ≤ 1_000_000) }
    requires entries { length entries.now ≤ MOST_COMMANDS }
    ensures { IfOk result (λ legal. IsTrue legal
        ↔ IsLegal (opening clients (record { keep = keep; versions = versions })) entries.now) }
{
    let mut store = PlainStore::new(alloc, clients, keep, versions)?;
    for entry in entries {
        if !store.accept(alloc, entry)? {
            return Ok(false);
        }
    }
    Ok(true)
}
