//! A UDP socket that waits for a datagram no longer than it is told.
ghost use Rattle.std.specs.Prelude.{◌≤◌, IfOk, IfSome, length};

use libc::net::{POLLIN, SO_RCVBUF, SOL_SOCKET, poll, setsockopt};
use libc::types::pollfd;
use std::io::{self, ErrorKind};
use std::net::{Net, SocketAddr, UdpSocket};
use std::os::fd::AsRawFd;

/// A bound socket.
#[derive(Drop)]
pub struct TimedSocket {
    socket: UdpSocket,
}

// As large as the system gives. What waits there while a node is busy isn't lost.
fn widen_buffer(socket: &UdpSocket) {
    let mut value = [0u8; 16];
    value[..4].copy_from_slice(&i32::MAX.to_ne_bytes());
    let _ = unsafe { setsockopt(socket.as_raw_fd(), SOL_SOCKET, SO_RCVBUF, &value, 4) };
}

// Waits until a datagram is there, at most so many milliseconds. Whether the time is over.
fn wait_in_vain(socket: &UdpSocket, milliseconds: u64) -> bool {
    let mut asked = [pollfd {
        fd: socket.as_raw_fd(),
        events: POLLIN,
        revents: 0,
    }];
    poll(&mut asked, i32::try_from(milliseconds).unwrap_or(i32::MAX)) == 0
}

impl TimedSocket {
    pub fn bind<R: Net>(net: &R, address: SocketAddr) -> io::Result<Self> {
        let socket = UdpSocket::bind(net, address)?;
        widen_buffer(&socket);
        socket.set_nonblocking(true)?;
        Ok(TimedSocket { socket })
    }

    /// Puts a datagram in front of the buffer and tells its length, unless none comes within so many
    /// milliseconds. One that is there costs a single call of the system.
    ///
    /// # Errors
    ///
    /// The kinds `WouldBlock` and `Interrupted` say that it is to be done again.
    pub fn receive(&self, buf: &mut [u8], milliseconds: u64) -> io::Result<Option<usize>>
        ensures { IfOk result (λ came. IfSome came (λ count. count ≤ length buf.new)) }
    {
        match self.socket.recv_from(buf) {
            Ok((count, _)) => return Ok(Some(count)),
            Err(error) if error.kind() == ErrorKind::WouldBlock => {}
            Err(error) => return Err(error),
        }
        if wait_in_vain(&self.socket, milliseconds) {
            return Ok(None);
        }
        Ok(Some(self.socket.recv_from(buf)?.0))
    }

    /// Sends a datagram. A call that a signal interrupts is made again.
    pub fn send(&self, to: SocketAddr, bytes: &[u8]) -> io::Result<usize> {
        for _ in 0..u64::MAX {
            match self.socket.send_to(bytes, to) {
                Err(error) if error.kind() == ErrorKind::Interrupted => {}
                sent => return sent,
            }
        }
        Err(io::Error::from(ErrorKind::Interrupted))
    }
}
