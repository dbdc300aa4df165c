//! The connections that come in at a door of a served store, and their log.
ghost use Rattle.std.specs.Prelude.{◌≡◌, ◌≤◌, ◌^◌, ◌-◌, ℕ, None, Some, is_some};

use command_line::options::Serving;
use connection_log::log::Log;
use connection_log::watching::LoggedArrivals;
use http_desk::door::AcceptQueue;
use http_desk::kept_listening::TcpArrivals;
use http_desk::pace::Limits;
use std::alloc::Global;
use std::sync::{Arc, Wait};
use std::time::Clock;

/// The log, where there is one.
pub fn watcher_of(log: &Option<Arc<Log, Global>>) -> Option<&Log>
    ensures { is_some result ≡ is_some log.now }
{
    match log {
        Some(log) => Some(&**log),
        None => None,
    }
}

/// How many connections are served: without end where no number is given.
pub fn connections_of(serving: &Serving) -> u64
    ensures some { (n : ℕ) → serving.now.connections ≡ Some n → result ≡ n }
    ensures none { serving.now.connections ≡ None → result ≡ 2 ^ 64 - 1 }
{
    match serving.connections {
        Some(connections) => connections as u64,
        None => u64::MAX,
    }
}

/// For how long each connection is kept.
fn limits_of(serving: &Serving) -> Limits
    ensures keep { result.keep ≡ serving.now.patience.keep }
    ensures idle { result.idle ≡ serving.now.patience.idle }
    ensures request { result.request ≡ serving.now.patience.request }
{
    Limits {
        keep: serving.patience.keep,
        idle: serving.patience.idle,
        request: serving.patience.request,
    }
}

/// The connections that come in at a door, where there is one.
pub fn listening_at<'a, T: Wait + Clock>(
    threads: &'a T,
    door: Option<&'a AcceptQueue>,
    serving: &Serving,
) -> Option<TcpArrivals<'a, T>>
    requires { 1 ≤ serving.now.patience.idle }
    ensures { is_some result ≡ is_some door.entry }
{
    match door {
        Some(door) => Some(TcpArrivals::new(threads, door, limits_of(serving))),
        None => None,
    }
}

/// Wraps the listener so that connections are logged if there is a log.
pub fn watching_at<'r, 'a, 'l, T: Wait + Clock + Sync>(
    threads: &'r T,
    listening: Option<&'a TcpArrivals<'a, T>>,
    log: Option<&'l Log>,
) -> Option<LoggedArrivals<'r, 'a, 'l, TcpArrivals<'a, T>, T, Log>>
    ensures { is_some result ≡ is_some listening.entry }
{
    match listening {
        Some(listening) => Some(LoggedArrivals::new(threads, listening, log)),
        None => None,
    }
}
