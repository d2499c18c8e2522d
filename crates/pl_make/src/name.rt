//! The name of the open file, which proofs alone read: it takes no memory.
use http_server::Log;

/// A name of which nothing is kept when the program runs.
#[derive(Drop)]
pub(crate) struct OpenName {
    /// Its bytes, each twice.
    pub bytes: Log<u8, u8>,
}

impl OpenName {
    ghost use Rattle.std.specs.Prelude.{◌≡◌};
    ghost use Rattle.pl_make.specs.OpenName.{name_in};

    /// The name with these bytes.
    pub fn of(name: &str) -> OpenName
        ensures { name_in result ≡ name.now }
    {
        let mut bytes = Log::new();
        for byte in name.as_bytes() {
            bytes = bytes.and(byte, byte);
        }
        OpenName { bytes }
    }
}
