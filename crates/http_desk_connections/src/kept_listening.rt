//! Connections to a socket, as streams to serve.
ghost use Rattle.std.specs.Prelude.{◌≤◌};

use crate::arrivals::Arrivals;
use crate::door::{AcceptQueue, Visit};
use crate::listening::FallibleArrivals;
use crate::pace::{Limits, SLICE};
use crate::sink::KeptSink;
use crate::source::KeptSource;
use http_desk_streams::serve::{ServeFault, Served};
use http_wire::gather::Gathering;
use std::net::TcpStream;
use std::sync::Wait;
use std::time::{Clock, Duration};

/// The connections that come in at a door, each of which is kept for so long.
#[derive(Drop)]
pub struct TcpArrivals<'a, R> {
    rt: &'a R,
    door: &'a AcceptQueue,
    limits: Limits,
}

impl<'a, R: Wait + Clock> TcpArrivals<'a, R> {
    /// The connections that come in at a door. A write of one of which no byte is taken in the idle seconds fails.
    pub fn new(rt: &'a R, door: &'a AcceptQueue, limits: Limits) -> TcpArrivals<'a, R>
        requires { 1 ≤ limits.idle }
    {
        TcpArrivals { rt, door, limits }
    }

    /// Sets how long calls on a connection wait, and says whether it did.
    fn limit(&self, stream: &TcpStream) -> bool {
        stream
            .set_read_timeout(Some(Duration::from_millis(SLICE)))
            .is_ok()
            && stream
                .set_write_timeout(Some(Duration::from_secs(self.limits.idle as u64)))
                .is_ok()
    }

    /// The reader and the writer of a connection, whose answers the system is asked to send at once.
    fn stream_of(
        &self,
        visit: Visit,
    ) -> Option<
        (
            KeptSource<'a, TcpStream, R, AcceptQueue>,
            KeptSink<'a, Gathering<TcpStream>>,
        ),
    > {
        let Visit { reader, writer } = visit;
        let _ = reader.set_nodelay(true);
        if !self.limit(&reader) {
            return None;
        }
        let mark = self.door.mark()?;
        Some((
            KeptSource::new(self.rt, self.door, mark, reader, self.limits),
            KeptSink::new(Gathering::new(writer), mark, self.door),
        ))
    }
}

impl<'a, R: Wait + Clock + Sync> FallibleArrivals for TcpArrivals<'a, R> {
    fn has_failed(&self) -> bool {
        self.door.has_failed()
    }
}

impl<'a, R: Wait + Clock + Sync> Arrivals for TcpArrivals<'a, R> {
    type Reader = KeptSource<'a, TcpStream, R, AcceptQueue>;

    type Writer = KeptSink<'a, Gathering<TcpStream>>;

    /// Waits for a connection.
    fn next(
        &self,
        _worker: usize,
    ) -> Option<
        (
            KeptSource<'a, TcpStream, R, AcceptQueue>,
            KeptSink<'a, Gathering<TcpStream>>,
        ),
    > {
        let visit = self.door.next(self.rt)?;
        match self.stream_of(visit) {
            Some(stream) => Some(stream),
            None => {
                self.door.leave(self.rt);
                self.door.fail(self.rt);
                None
            }
        }
    }

    /// Closes a connection, once its client has taken a refusal, and notifies the door. If it was
    /// notified that the store's device has failed, no further connection is served.
    fn ended(
        &self,
        reader: KeptSource<'a, TcpStream, R, AcceptQueue>,
        writer: KeptSink<'a, Gathering<TcpStream>>,
        _served: Result<Served, ServeFault>,
    ) {
        let mut reader = reader;
        reader.linger();
        reader.release();
        drop(reader);
        drop(writer);
        self.door.leave(self.rt);
        self.door.end(self.rt);
    }
}
