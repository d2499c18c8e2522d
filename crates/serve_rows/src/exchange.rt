//! Requests over links in memory, and the replies that they are to have.

use pl_cli::serve;
use pl_io::{MemConn, MemDoor, MemSink};
use pl_keeper::Keeper;
use std::alloc::{AllocError, Global};
use std::test::Fail;

/// What a peer sends, and what it is answered.
#[derive(Clone, Copy)]
pub(crate) struct Exchange<'a> {
    /// The lines of the head, as `GET /benches/b1/captures HTTP/1.1`.
    pub(crate) head: &'a str,
    pub(crate) sent: &'a [u8],
    /// As `201 Created`.
    pub(crate) status: &'a str,
    pub(crate) answered: &'a str,
}

impl<'a> Exchange<'a> {
    /// A request without a body.
    pub(crate) fn new(head: &'a str, status: &'a str, answered: &'a str) -> Exchange<'a> {
        Exchange {
            head,
            sent: &[],
            status,
            answered,
        }
    }

    /// The same request with a body.
    pub(crate) fn with(self, sent: &'a [u8]) -> Exchange<'a> {
        Exchange { sent, ..self }
    }

    pub(crate) fn request(&self, alloc: Global) -> Result<Vec<u8>, AllocError> {
        let mut request = Vec::from_slice(alloc, self.head.as_bytes())?;
        request.extend_from_slice(b"\r\n\r\n")?;
        request.extend_from_slice(self.sent)?;
        Ok(request)
    }

    fn reply(&self, alloc: Global) -> Result<String, AllocError> {
        let status = self.status;
        let length = self.answered.len();
        let answered = self.answered;
        let allow = if status.starts_with("405") {
            "Allow: GET\r\n"
        } else {
            ""
        };
        format!(in alloc;
            "HTTP/1.1 {status}\r\nContent-Type: application/json\r\nContent-Length: {length}\r\n\
             {allow}Connection: close\r\n\r\n{answered}"
        )
    }

    /// Checks that what was written to the peer is the reply.
    pub(crate) fn judge(&self, alloc: Global, written: &[u8]) -> Result<(), Fail> {
        if written == self.reply(alloc)?.as_bytes() {
            return Ok(());
        }
        let written = str::from_utf8(written)?;
        Err(Fail::new(format_args!("{} gives {written}", self.head)))
    }
}

/// Serves a link for each exchange, and checks each reply. Gives the status of the run.
pub(crate) fn judge<K: Keeper>(
    alloc: Global,
    keeper: &mut K,
    exchanges: &[Exchange<'_>],
) -> Result<u8, Fail> {
    let mut links = Vec::new(alloc);
    for exchange in exchanges {
        links.push(MemConn::new(alloc, &exchange.request(alloc)?, 1000, 300_000, &[])?)?;
    }
    let mut door = MemDoor::new(alloc, links, &[])?;
    let mut out = MemSink::new(alloc, 1000, 1000, &[])?;
    let turns = u32::try_from(exchanges.len())?;
    let status = serve(alloc, turns, &mut out, &mut door, keeper);
    for (k, exchange) in exchanges.iter().enumerate() {
        exchange.judge(alloc, door.written(k).ok_or("no such link")?)?;
    }
    Ok(status)
}
