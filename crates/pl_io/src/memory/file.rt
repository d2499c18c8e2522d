//! One file in memory, and how it is found and read.
ghost use Rattle.std.specs.Prelude.{◌≡◌, ◌<◌, ◌^◌, ◌++◌, length, take, min, string_bytes};
ghost use Rattle.std.specs.Prelude.{Some, None, IfOk, IfSome, IfNone};
ghost use Rattle.pl_io.specs.MemFiles.{IsInside, bytes_at, file_in, given, name_at, unread};

use std::alloc::{AllocError, Global};

/// A file and its name.
#[derive(Debug, Drop)]
pub struct MemFile {
    pub name: String,
    pub bytes: Vec<u8>,
}

/// The open file, as its index among the files, and how many bytes of it were read.
#[derive(Clone, Copy, Debug)]
pub struct Opened {
    pub file: usize,
    pub place: usize,
}

impl MemFile {
    /// A copy of these bytes under this name.
    pub fn new(alloc: Global, name: &str, bytes: &[u8]) -> Result<MemFile, AllocError>
        ensures name { IfOk result (λ file. string_bytes file.name ≡ name.now) }
        ensures bytes { IfOk result (λ file. file.bytes.items ≡ bytes.now) }
    {
        Ok(MemFile {
            name: String::from_str(alloc, name)?,
            bytes: bytes.to_vec(alloc)?,
        })
    }
}

/// The index of the newest file of this name.
pub fn newest(files: &[MemFile], name: &str) -> Option<usize>
    ensures inside { IfSome result (λ k. k < length files.now) }
    ensures found { IfSome result (λ k. file_in files.now name.now ≡ Some (bytes_at files.now k)) }
    ensures named { IfSome result (λ k. name_at files.now k ≡ name.now) }
    ensures absent { IfNone result (file_in files.now name.now ≡ None) }
{
    for k in (0..files.len()).rev() {
        if files[k].name.as_str() == name {
            return Some(k);
        }
    }
    None
}

impl Opened {
    /// What is left of the open file.
    fn unread<'a>(&self, files: &'a [MemFile]) -> &'a [u8]
        requires { IsInside files.now self.now }
        ensures unread { result.now ≡ unread files.now self.now }
        ensures fits { length (bytes_at files.now self.now.file) < 2 ^ 64 }
    {
        &files[self.file].bytes[self.place..]
    }

    /// Reads the next bytes of the open file into the front of `buf`, at most `step` of them, and
    /// answers how many.
    pub fn read(&mut self, files: &[MemFile], step: usize, buf: &mut [u8]) -> usize
        requires { IsInside files.now self.old }
        ensures inside { IsInside files.now self.new }
        ensures file { self.new.file ≡ self.old.file }
        ensures count { result ≡ given step (length buf.old) (Some (unread files.now self.old)) }
        ensures bytes { unread files.now self.old
            ≡ take result buf.new ++ unread files.now self.new }
    {
        let count = copy_front(self.unread(files), step, buf);
        self.place += count;
        count
    }
}

/// Copies the front of `bytes`, at most `step` of them, into the front of `buf`. How many.
pub fn copy_front(bytes: &[u8], step: usize, buf: &mut [u8]) -> usize
    ensures count { result ≡ min (min step (length bytes.now)) (length buf.old) }
    ensures bytes { take result buf.new ≡ take result bytes.now }
{
    let count = step.min(bytes.len()).min(buf.len());
    buf[..count].copy_from_slice(&bytes[..count]);
    count
}
