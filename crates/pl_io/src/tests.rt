//! Files, faults and output as they are worked out by hand.
ghost use Rattle.std.specs.Prelude.{◌≡◌, ◌<◌, true};

use crate::{Failed, FileShelf, MemShelf, MemSink, Shelf, Sink, StdSink, write_all};
use std::alloc::{AllocError, Global};
use std::io::Write;
use std::test::Fail;
use std::{env, fs, io, process};

pub mod links;

const CAPTURE: &[u8] = b"a first line";

const PROFILE: &[u8] = b"port";

fn two_files(alloc: Global, step: usize, fails: &[u64]) -> Result<MemShelf, AllocError>
    requires { 0 < step }
{
    let mut shelf = MemShelf::new(alloc, step, fails)?;
    shelf.add("capture", CAPTURE)?;
    shelf.add("profile", PROFILE)?;
    Ok(shelf)
}

/// What is left of the open file, as far as 20 reads give it.
fn rest<H: Shelf>(alloc: Global, shelf: &mut H) -> Result<Vec<u8>, Fail>
    requires { H.is_open shelf.old ≡ true }
{
    let mut bytes = Vec::new(alloc);
    let mut buf = [0; 8];
    for _ in 0..20 {
        let count = shelf.read(&mut buf)?;
        bytes.extend_from_slice(&buf[..count])?;
    }
    Ok(bytes)
}

#[test]
fn each_file_is_read_in_order(rt: HostRuntime) -> Result<(), Fail> {
    for step in [1, 3, 80] {
        let mut shelf = two_files(rt.alloc(), step, &[])?;
        shelf.open("profile")?;
        assert_eq!(rt;
            rest(rt.alloc(), &mut shelf)?.as_slice(),
            PROFILE,
            "step {step}"
        );
        shelf.open("capture")?;
        assert_eq!(rt;
            rest(rt.alloc(), &mut shelf)?.as_slice(),
            CAPTURE,
            "step {step}"
        );
    }
    Ok(())
}

#[test]
fn an_absent_name_is_not_opened(rt: HostRuntime) -> Result<(), Fail> {
    let mut shelf = two_files(rt.alloc(), 3, &[])?;
    assert_eq!(rt; shelf.open("captures"), Err(Failed));
    shelf.open("capture")?;
    assert_eq!(rt; rest(rt.alloc(), &mut shelf)?.as_slice(), CAPTURE);
    Ok(())
}

#[test]
fn after_a_failed_read_the_rest_is_as_before(rt: HostRuntime) -> Result<(), Fail> {
    let mut shelf = two_files(rt.alloc(), 3, &[3])?;
    let mut buf = [0; 8];
    shelf.open("capture")?;
    assert_eq!(rt; shelf.read(&mut buf), Ok(3));
    assert_eq!(rt; shelf.read(&mut buf), Err(Failed));
    assert_eq!(rt;
        rest(rt.alloc(), &mut shelf)?.as_slice(),
        b"irst line".as_slice()
    );
    Ok(())
}

#[test]
fn an_open_file_stays_where_its_name_is_replaced(rt: HostRuntime) -> Result<(), Fail> {
    let mut shelf = two_files(rt.alloc(), 3, &[])?;
    shelf.open("profile")?;
    shelf.add("profile", b"lane")?;
    assert_eq!(rt; rest(rt.alloc(), &mut shelf)?.as_slice(), PROFILE);
    shelf.open("profile")?;
    assert_eq!(rt;
        rest(rt.alloc(), &mut shelf)?.as_slice(),
        b"lane".as_slice()
    );
    Ok(())
}

#[test]
fn a_full_sink_fails(rt: HostRuntime) -> Result<(), Fail> {
    let mut sink = MemSink::new(rt.alloc(), 5, 2, &[])?;
    assert_eq!(rt; sink.write(b"abc"), Ok(2));
    assert_eq!(rt; write_all(&mut sink, b"cdefg"), Err(Failed));
    assert_eq!(rt; sink.written(), b"abcde".as_slice());
    assert_eq!(rt; sink.write(b""), Ok(0));
    Ok(())
}

#[test]
fn a_planned_write_fails_and_the_next_goes_on(rt: HostRuntime) -> Result<(), Fail> {
    let mut sink = MemSink::new(rt.alloc(), 5, 2, &[2])?;
    assert_eq!(rt; write_all(&mut sink, b"abc"), Err(Failed));
    assert_eq!(rt; sink.written(), b"ab".as_slice());
    assert_eq!(rt; write_all(&mut sink, b"cde"), Ok(()));
    assert_eq!(rt; sink.written(), b"abcde".as_slice());
    Ok(())
}

#[test]
fn all_is_written_whatever_a_write_takes(rt: HostRuntime) -> Result<(), Fail> {
    for take in [1, 5, 60] {
        let mut sink = MemSink::new(rt.alloc(), 12, take, &[])?;
        assert_eq!(rt; write_all(&mut sink, CAPTURE), Ok(()), "take {take}");
        assert_eq!(rt; sink.written(), CAPTURE, "take {take}");
    }
    Ok(())
}

#[test]
fn a_file_of_the_system_is_read(rt: HostRuntime) -> Result<(), Fail> {
    let name = format!(in rt.alloc(); "capture_{}", process::id(rt.process()))?;
    let path = env::temp_dir(&rt)?.join(rt.alloc(), name)?;
    fs::write(&rt, path.as_path(), CAPTURE)?;
    let mut shelf = FileShelf::new(&rt);
    shelf.open(path.as_str())?;
    assert_eq!(rt; rest(rt.alloc(), &mut shelf)?.as_slice(), CAPTURE);
    fs::remove_file(&rt, path.as_path())?;
    assert_eq!(rt; shelf.open(path.as_str()), Err(Failed));
    Ok(())
}

/// Takes a byte or none, and is flushed or not.
#[derive(Drop)]
struct Stuck {
    takes: usize,
    is_flushed: bool,
}

impl Write for Stuck {
    fn write(&mut self, buf: &[u8]) -> io::Result<usize> {
        Ok(self.takes.min(buf.len()))
    }

    fn flush(&mut self) -> io::Result<()> {
        if self.is_flushed {
            Ok(())
        } else {
            Err(io::Error::from(io::ErrorKind::BrokenPipe))
        }
    }
}

#[test]
fn a_stuck_writer_is_at_fault(rt: HostRuntime) {
    for (takes, is_flushed, answer) in [
        (0, true, Err(Failed)),
        (1, false, Err(Failed)),
        (1, true, Ok(1)),
    ] {
        let mut sink = StdSink::new(Stuck { takes, is_flushed });
        assert_eq!(rt;
            sink.write(b"ab"),
            answer,
            "takes {takes}, is flushed {is_flushed}"
        );
    }
}

#[test]
fn output_goes_through_to_the_writer(rt: HostRuntime) -> Result<(), Fail> {
    let mut bytes = Vec::new(rt.alloc());
    assert_eq!(rt; write_all(&mut StdSink::new(&mut bytes), CAPTURE), Ok(()));
    assert_eq!(rt; bytes.as_slice(), CAPTURE);
    Ok(())
}
