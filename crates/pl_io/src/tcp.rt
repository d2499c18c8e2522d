//! Connections of the system over TCP.
ghost use Rattle.std.specs.Prelude.{◌≡◌, ◌<◌, ◌≤◌, false, None, IfOk, OnErr, length, take};
ghost use Rattle.std.specs.Io.KnownBytes.{Appends, Keeps, ReadConsumes};
ghost use Rattle.std.proofs.lemmas.Bool.{false≢true};
ghost use Rattle.pl_io.specs.Faults.{HasCause};

use crate::conn::Conn;
use crate::door::Door;
use crate::failed::{Failed, FaultCount};
use crate::timed::TimedStream;
use std::io;
use std::io::{Read, Write};
use std::net::{Net, OpenListener, TcpListener};
use std::time::Clock;

/// A stream, as of a socket. It tells neither what comes nor what was written nor its room.
#[derive(Drop)]
pub struct TcpConn<T: Read + Write> {
    stream: T,
    faults: FaultCount,
}

impl<T: Read + Write> TcpConn<T> {
    /// A connection over this stream, with no fault.
    pub fn new(stream: T) -> TcpConn<T>
        ensures { ⟦<Self as Conn>⟧.faults result ≡ 0 }
    {
        TcpConn {
            stream,
            faults: FaultCount::new(),
        }
    }
}

impl<T: Read + Write> Conn for TcpConn<T> {
    ghost incoming = { λ conn. None };

    ghost written = { λ conn. None };

    ghost room = { λ conn. None };

    ghost faults = { λ conn. conn.faults.value };

    ghost room_is_below = { λ conn never. absurd (false≢true never) };

    /// A read that a signal interrupts is counted as a fault like any other.
    fn read(&mut self, buf: &mut [u8]) -> Result<usize, Failed>
        requires { 0 < length buf.old }
        ensures most { IfOk result (λ n. n ≤ length buf.new) }
        ensures given { ReadConsumes (T.remaining self.old.stream) (T.remaining self.new.stream)
            result buf.new }
        ensures cause { HasCause self.old.faults.value self.new.faults.value result }
        ensures never_falls { self.old.faults.value ≤ self.new.faults.value }
    {
        match self.stream.read(buf) {
            Ok(count) => Ok(count),
            Err(_) => Err(self.faults.raise()),
        }
    }

    /// A stream that takes nothing of a piece is at fault.
    fn write(&mut self, piece: &[u8]) -> Result<usize, Failed>
        ensures most { IfOk result (λ n. n ≤ length piece.now) }
        ensures some { IfOk result (λ n. 0 < length piece.now → 0 < n) }
        ensures passed { IfOk result (λ n.
            Appends (T.contents self.old.stream) (T.contents self.new.stream) (take n piece.now)) }
        ensures kept { OnErr result (
            Keeps (T.contents self.old.stream) (T.contents self.new.stream)) }
        ensures cause { HasCause self.old.faults.value self.new.faults.value result }
        ensures never_falls { self.old.faults.value ≤ self.new.faults.value }
    {
        match self.stream.write(piece) {
            Ok(count) if count > 0 || piece.is_empty() => Ok(count),
            _ => Err(self.faults.raise()),
        }
    }
}

/// A listener at an address of the system, if one could be had. It tells neither links nor replies.
#[derive(Drop)]
pub struct TcpDoor<R: Net + Clock + Copy> {
    /// It is kept for as long as its listener is.
    rt: R,
    listener: Option<R::Listener>,
    is_out: bool,
    faults: FaultCount,
}

impl<R: Net + Clock + Copy> TcpDoor<R> {
    /// A door at this address, as `127.0.0.1:8080`, with no link out and no fault. Where the
    /// address can't be bound, every `next` fails.
    pub fn bind(rt: R, address: &str) -> TcpDoor<R>
        ensures not_out { ⟦<Self as Door>⟧.is_out result ≡ false }
        ensures none_failed { ⟦<Self as Door>⟧.faults result ≡ 0 }
    {
        TcpDoor {
            listener: TcpListener::bind(&rt, address).ok(),
            rt,
            is_out: false,
            faults: FaultCount::new(),
        }
    }
}

/// Waits for a peer. The time for its request begins then.
fn accept<R: Net + Clock + Copy>(
    rt: R,
    listener: &R::Listener,
) -> io::Result<TimedStream<R::Stream, R>> {
    let (stream, _) = listener.accept()?;
    TimedStream::new(stream, rt)
}

impl<R: Net + Clock + Copy> Door for TcpDoor<R> {
    type Link = TcpConn<TimedStream<R::Stream, R>>;

    ghost links = { λ door. None };

    ghost replies = { λ door. None };

    ghost is_out = { λ door. door.is_out };

    ghost faults = { λ door. door.faults.value };

    ghost links_are_below = { λ door never. absurd (false≢true never) };

    /// A peer that comes and goes before it is accepted is counted as a fault.
    fn next(&mut self) -> Result<TcpConn<TimedStream<R::Stream, R>>, Failed> {
        let stream = match &self.listener {
            Some(listener) => accept(self.rt, listener).ok(),
            None => None,
        };
        match stream {
            Some(stream) => {
                self.is_out = true;
                Ok(TcpConn::new(stream))
            }
            None => Err(self.faults.raise()),
        }
    }

    fn close(&mut self, _link: TcpConn<TimedStream<R::Stream, R>>) {
        self.is_out = false;
    }
}

#[cfg(test)]
mod tests;
