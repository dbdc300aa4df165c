//! The address at which a desk is served.
ghost use Rattle.std.specs.Prelude.{IfOk};
ghost use Rattle.std.specs.declared.net.socket_addr.SocketAddrV4.{SocketAddrV4 as Address};
ghost use Rattle.serve_command.specs.Loopback.{IsLoopback, ListensHere};

use std::io;
use std::net::{Ipv4Addr, Net, SocketAddrV4, TcpListener};

/// What binds sockets.
pub trait Binds {
    type Listener: Drop;

    // A socket was asked for that is bound to this address, and this one was given.
    ghost binds: { Self → Address → Self.Listener → Type 0 };

    fn bind(&self, address: SocketAddrV4) -> io::Result<Self::Listener>
        ensures { IfOk result (λ listener. binds self.now address listener) };
}

impl<N: Net> Binds for N {
    type Listener = N::Listener;

    // Nothing is known about the network's sockets.
    ghost binds = { λ _ _ _. Unit {0} };

    fn bind(&self, address: SocketAddrV4) -> io::Result<N::Listener> {
        TcpListener::bind(self, address)
    }
}

/// The loopback's address, 127.0.0.1, at a port.
fn loopback(port: u16) -> SocketAddrV4
    ensures { IsLoopback port result }
{
    SocketAddrV4::new(Ipv4Addr::LOCALHOST, port)
}

/// A socket that listens at a port of 127.0.0.1 and at no other address.
pub fn listen_here<B: Binds>(net: &B, port: u16) -> io::Result<B::Listener>
    ensures { IfOk result (ListensHere B.binds net.now port) }
{
    net.bind(loopback(port))
}
