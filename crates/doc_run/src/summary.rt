//! The summary of a run of generated scripts.
ghost use Rattle.std.specs.Prelude.{◌≡◌, ◌*◌, ◌≤◌, IfOk};
ghost use Rattle.doc_run.specs.Clients.{IsRunGiven, IsMade, default_options};
ghost use Rattle.doc_run.specs.Made.{IsSummaryOf, numbers_of};
ghost use Rattle.command_line.specs.Limits.{IsGenWithin};
ghost use Rattle.run_limits.specs.declared.TheConstants.{MOST_COMMANDS};

use command_line::GenWords;
use doc_model::{NoMemory, is_legal, merge};
use result_text::{Made, summary_text};
use std::alloc::Global;
use store_run::Finished;

// By which limits the histories of generated scripts are looked at: those of a run without options.
const KEEP: u32 = 8;

const VERSIONS: u32 = 1_000_000;

/// The summary of what a run of generated scripts came to.
pub fn summary_of(alloc: Global, made: GenWords, finished: &Finished) -> Result<Vec<u8>, NoMemory>
    requires within { IsGenWithin made }
    requires few { made.clients * made.commands ≤ MOST_COMMANDS }
    requires comes { IsRunGiven (IsMade made) default_options finished.now }
    ensures text { IfOk result (λ text. IsSummaryOf made finished.now text.items) }
{
    let merged = merge(alloc, &finished.logs)?;
    let legal = is_legal(alloc, &merged, made.clients, KEEP, VERSIONS)?;
    summary_text(alloc, numbers(made), &merged, finished.totals.nodes, legal)
}

// By which numbers the scripts are made.
fn numbers(made: GenWords) -> Made
    ensures { result ≡ numbers_of made }
{
    Made {
        start: made.start,
        clients: made.clients,
        commands: made.commands,
    }
}
