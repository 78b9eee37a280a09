//! The clients after their threads: the log of each is kept.
ghost use Rattle.std.specs.Prelude.{◌≡◌, ◌≤◌, [], length, map, vec_capacity};
ghost use Rattle.std.specs.List.{list_any};
ghost use Rattle.client_threads.specs.Taken.{has_failed, log_of};

use crate::clients::Client;
use doc_model::Log;

/// Puts the logs of the clients into the list, in which there is room for them. It says whether
/// some client stopped because memory ran out.
pub fn take_logs(clients: Vec<Client>, logs: &mut Vec<Log>) -> bool
    requires empty { logs.old.items ≡ [] }
    requires room { length clients.items ≤ vec_capacity logs.old }
    ensures logs { logs.new.items ≡ map log_of clients.items }
    ensures failed { result ≡ list_any has_failed clients.items }
{
    let mut failed = false;
    for client in clients {
        failed |= client.failed;
        logs.push_reserved(client.session.into_log());
    }
    failed
}
