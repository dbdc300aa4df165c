//! What a connection came to.
ghost use Rattle.std.specs.Prelude.{◌≡◌};
ghost use Rattle.connection_log.specs.Connections.{connection_of as connection_by, requests_of, faults_of};

use crate::counting::Sent;
use http_desk::{ServeFault, Served};
use jiff_core::civil::DateTime;

/// The result of a connection.
#[derive(Clone, Copy)]
pub struct Connection {
    /// When it ended, in UTC, if the clock could be read.
    pub at: Option<DateTime>,
    /// Its place among those that were taken, from 1 on.
    pub number: u64,
    /// The answers that were written, the interim ones aside.
    pub requests: u64,
    /// Those of them whose status is 400 or above.
    pub refusals: u64,
    /// 1 where it wasn't served to its end.
    pub faults: u64,
    /// The bytes that came.
    pub read: u64,
    /// The bytes of the pieces that were written whole.
    pub written: u64,
}

fn requests(served: &Result<Served, ServeFault>, sent: &Sent) -> u64
    ensures { result ≡ requests_of served.now sent.now }
{
    match served {
        Ok(served) => served.requests,
        Err(_) => sent.answers,
    }
}

fn faults(served: &Result<Served, ServeFault>) -> u64
    ensures { result ≡ faults_of served.now }
{
    match served {
        Ok(_) => 0,
        Err(_) => 1,
    }
}

/// Returns the result of a connection with this number and end: the number of bytes read, and what
/// was written.
pub fn connection_of(
    at: Option<DateTime>,
    number: u64,
    served: &Result<Served, ServeFault>,
    read: u64,
    sent: &Sent,
) -> Connection
    ensures { result ≡ connection_by at number served.now read sent.now }
{
    Connection {
        at,
        number,
        requests: requests(served, sent),
        refusals: sent.refusals,
        faults: faults(served),
        read,
        written: sent.bytes,
    }
}
