//! A clock that is set by hand, and a peer that is always ready.
use super::TimedStream;
use std::cell::Cell;
use std::io::{self, ErrorKind, Read, Write};
use std::net::OpenStream;
use std::test::Fail;
use std::time::{Clock, Duration};

/// Milliseconds that the clock shows where a peer is accepted.
const ACCEPTED: u64 = 7_000;

/// A clock that stands still, in milliseconds.
#[derive(Drop)]
struct Stopped(u64);

impl Clock for Stopped {
    fn monotonic(&self) -> io::Result<Duration> {
        Ok(Duration::from_millis(self.0))
    }

    fn since_1970(&self) -> io::Result<Duration> {
        Err(io::Error::from(ErrorKind::Unsupported))
    }
}

/// Answers each call with so many bytes as it had calls, and keeps how long the last may take.
#[derive(Drop)]
struct Ready {
    calls: usize,
    read_within: Cell<Option<Duration>>,
    write_within: Cell<Option<Duration>>,
}

impl OpenStream for Ready {
    fn set_read_timeout(&self, within: Option<Duration>) -> io::Result<()> {
        self.read_within.set(within);
        Ok(())
    }

    fn set_write_timeout(&self, within: Option<Duration>) -> io::Result<()> {
        self.write_within.set(within);
        Ok(())
    }
}

impl Read for Ready {
    fn read(&mut self, buf: &mut [u8]) -> io::Result<usize> {
        self.calls = self.calls.saturating_add(1);
        Ok(self.calls.min(buf.len()))
    }
}

impl Write for Ready {
    fn write(&mut self, buf: &[u8]) -> io::Result<usize> {
        self.calls = self.calls.saturating_add(1);
        Ok(self.calls.min(buf.len()))
    }

    fn flush(&mut self) -> io::Result<()> {
        self.calls = self.calls.saturating_add(1);
        Ok(())
    }
}

/// A stream whose peer was accepted so many milliseconds ago.
fn accepted_before(milliseconds: u64) -> io::Result<TimedStream<Ready, Stopped>> {
    let ready = Ready {
        calls: 0,
        read_within: Cell::new(None),
        write_within: Cell::new(None),
    };
    let mut timed = TimedStream::new(ready, Stopped(ACCEPTED))?;
    timed.clock = Stopped(ACCEPTED.saturating_add(milliseconds));
    Ok(timed)
}

#[test]
fn a_call_may_take_ten_seconds_and_no_more_than_is_left(rt: HostRuntime) -> Result<(), Fail> {
    for (milliseconds, left) in [
        (0, 10_000),
        (110_000, 10_000),
        (110_001, 9_999),
        (119_999, 1),
    ] {
        let left = Some(Duration::from_millis(left));
        let mut timed = accepted_before(milliseconds)?;
        assert_eq!(rt; timed.read(&mut [0; 8])?, 1);
        assert_eq!(rt; timed.stream.read_within.get(), left);
        assert_eq!(rt; timed.stream.write_within.get(), None);
        assert_eq!(rt; timed.write(b"abcdefgh")?, 2);
        assert_eq!(rt; timed.stream.write_within.take(), left);
        timed.flush()?;
        assert_eq!(rt; timed.stream.calls, 3);
        assert_eq!(rt; timed.stream.write_within.get(), left);
    }
    Ok(())
}

#[test]
fn past_the_deadline_a_call_fails_and_touches_nothing(rt: HostRuntime) -> Result<(), Fail> {
    for milliseconds in [120_000, 120_001, 1_000_000] {
        let mut timed = accepted_before(milliseconds)?;
        for refused in [
            timed.read(&mut [0; 8]).err(),
            timed.write(b"abcdefgh").err(),
            timed.flush().err(),
        ] {
            let kind = refused.map(|error| error.kind());
            assert_eq!(rt; kind, Some(ErrorKind::TimedOut));
        }
        assert_eq!(rt; timed.stream.calls, 0);
        assert_eq!(rt; timed.stream.read_within.get(), None);
        assert_eq!(rt; timed.stream.write_within.get(), None);
    }
    Ok(())
}
