//! A stream whose peer has only so much time, for a call and for its whole request.
ghost use Rattle.std.specs.Prelude.{◌≡◌, ◌<◌, ◌↔◌, IfOk, IfSome, IsSome};
ghost use Rattle.std.specs.Duration.{as_nanos};
ghost use Rattle.std.specs.Io.{ReadsAtMost, WritesAtMost};
ghost use Rattle.std.specs.Io.KnownBytes.{Keeps, ReadConsumes, WriteAppends};
ghost use Rattle.pl_io.specs.Allowed.{allowed};

use std::io::{self, ErrorKind, Read, Write};
use std::net::OpenStream;
use std::time::{Clock, Duration, Instant};

/// A call may take so many seconds, in which the peer neither sends nor takes a byte.
const PATIENCE: u64 = 10;

/// A request may take so many seconds from when its peer was accepted, with its reply.
const WHOLE: u64 = 120;

/// How long a call may take that begins so long after its peer was accepted. None once the time for
/// the request is over.
fn allowance(since: Duration) -> Option<Duration>
    ensures some { IfSome result (λ left. as_nanos left ≡ allowed (as_nanos since)) }
    ensures over { IsSome result ↔ (0 < allowed (as_nanos since)) }
{
    let left = Duration::from_secs(WHOLE).saturating_sub(since);
    let patience = Duration::from_secs(PATIENCE);
    if left.is_zero() {
        None
    } else if left < patience {
        Some(left)
    } else {
        Some(patience)
    }
}

/// A stream, and when its peer was accepted. Each call is handed on to the stream, which is told
/// first how long it may take, so that none outlasts the request. Once the time for the request is
/// over a call fails (`TimedOut`) and touches nothing; and so it is where the clock can't be read or
/// the stream doesn't take the time it is told.
#[derive(Drop)]
pub struct TimedStream<S: Read + Write + OpenStream, R: Clock> {
    stream: S,
    clock: R,
    accepted: Instant,
}

impl<S: Read + Write + OpenStream + Drop, R: Clock + Drop> TimedStream<S, R> {
    /// A stream whose peer is accepted now. An error where the clock can't be read.
    pub fn new(stream: S, clock: R) -> io::Result<TimedStream<S, R>>
        ensures { IfOk result (λ timed. timed.stream ≡ stream) }
    {
        Ok(TimedStream {
            accepted: Instant::now(&clock)?,
            stream,
            clock,
        })
    }
}

impl<S: Read + Write + OpenStream, R: Clock> TimedStream<S, R> {
    /// How long a call may take that begins now.
    fn time_left(&self) -> io::Result<Duration> {
        let since = self.accepted.elapsed(&self.clock)?;
        allowance(since).ok_or(io::Error::from(ErrorKind::TimedOut))
    }
}

impl<S: Read + Write + OpenStream, R: Clock> Read for TimedStream<S, R> {
    ghost remaining = { λ timed. S.remaining timed.stream };

    fn read(&mut self, buf: &mut [u8]) -> io::Result<usize>
        ensures bound { ReadsAtMost result buf.new }
        ensures bytes { ReadConsumes (S.remaining self.old.stream) (S.remaining self.new.stream)
            result buf.new }
        ensures same_start { self.new.accepted ≡ self.old.accepted }
    {
        self.stream.set_read_timeout(Some(self.time_left()?))?;
        self.stream.read(buf)
    }
}

impl<S: Read + Write + OpenStream, R: Clock> Write for TimedStream<S, R> {
    ghost contents = { λ timed. S.contents timed.stream };

    fn write(&mut self, buf: &[u8]) -> io::Result<usize>
        ensures bound { WritesAtMost result buf.now }
        ensures bytes { WriteAppends (S.contents self.old.stream) (S.contents self.new.stream)
            result buf.now }
        ensures same_start { self.new.accepted ≡ self.old.accepted }
    {
        self.stream.set_write_timeout(Some(self.time_left()?))?;
        self.stream.write(buf)
    }

    fn flush(&mut self) -> io::Result<()>
        ensures bytes { Keeps (S.contents self.old.stream) (S.contents self.new.stream) }
        ensures same_start { self.new.accepted ≡ self.old.accepted }
    {
        self.stream.set_write_timeout(Some(self.time_left()?))?;
        self.stream.flush()
    }
}

#[cfg(test)]
mod tests;
