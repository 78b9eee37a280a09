//! The totals of a run, from its logs and the image of its heap.
ghost use Rattle.std.specs.Prelude.{◌≡◌, ◌≤◌, ◌<◌, ◌+◌, ◌*◌, ◌^◌, All};
ghost use Rattle.std.specs.Prelude.{length};
ghost use Rattle.doc_model.specs.Agreement.{ok_places};
ghost use Rattle.doc_model.specs.Merge.{all_entries};
ghost use Rattle.run_limits.specs.declared.TheConstants.{MOST_COMMANDS};
ghost use Rattle.store_run.specs.Finished.{IsTotals};
ghost use Rattle.store_run.specs.Parts.{IsCounted};

use cell_heap::Image;
use closed_store::{latest_nodes, used_cells};
use doc_model::{Entry, Log, Totals};

/// How many cells the opening of a store takes, which no client claims.
const FIRST: u64 = 3;

/// The totals of a run whose collector freed so many cells.
pub(crate) fn totals_of(image: &Image, freed: u64, logs: &[Log]) -> Totals
    requires few { length logs.now ≤ 64 }
    requires short { All (λ log. length log.entries ≤ MOST_COMMANDS) logs.now }
    requires freed { freed < 2 ^ 63 }
    requires counted { IsCounted image.now freed }
    ensures totals { (at : IsCounted image.now freed)
        → IsTotals at.core logs.now at.trees result }
    ensures balance { 3 + result.claimed ≡ result.used + result.freed }
    ensures all_cells { result.used + result.free ≡ image.now.cells }
{
    let used = used_cells(image);
    Totals {
        commands: commands_in(logs),
        versions: versions_in(logs),
        claimed: used + freed - FIRST,
        freed,
        used,
        free: u64::from(image.cells()) - used,
        cycles: u64::from(image.control().cycles),
        nodes: latest_nodes(image),
    }
}

/// How many entries the logs have.
fn commands_in(logs: &[Log]) -> u64
    requires few { length logs.now ≤ 64 }
    requires short { All (λ log. length log.entries ≤ MOST_COMMANDS) logs.now }
    ensures count { result ≡ length (all_entries logs.now) }
{
    let mut count = 0;
    for log in logs {
        count += log.entries().len() as u64;
    }
    count
}

/// How many versions they made.
fn versions_in(logs: &[Log]) -> u64
    requires few { length logs.now ≤ 64 }
    requires short { All (λ log. length log.entries ≤ MOST_COMMANDS) logs.now }
    ensures count { result ≡ length (ok_places (all_entries logs.now)) }
{
    let mut count = 0;
    for log in logs {
        count += new_versions(log.entries());
    }
    count
}

/// How many of the entries made a version.
fn new_versions(entries: &[Entry]) -> u64
    ensures count { result ≡ length (ok_places entries.now) }
    ensures few { result ≤ length entries.now }
{
    let mut count = 0;
    for entry in entries {
        if entry.reply.is_ok() {
            count += 1;
        }
    }
    count
}
