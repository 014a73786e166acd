// What has arrived on the input, as soon as it has (program 8, program 9).
ghost use Rattle.std.specs.Prelude.{false, ◌≡◌, ◌<◌, ◌↔◌, IsTrue, length};
ghost use Rattle.std.specs.Io.KnownBytes.{Consumes, IsAtEnd};
ghost use Rattle.pagemon.specs.Conversation.{Fits, IsPassing};
ghost use Rattle.pagemon.specs.Printed.{brought, is_later};
ghost use Rattle.pagemon.specs.Arrival.{Tells};

use std::io::{self, ErrorKind, Read};
use std::thread;

// What a read came to. Not io::Result, since `Fits`, `next`, `due`, `stands` and `brought` of specs are by these cases.
#[derive(Clone, Copy, Debug)]
pub enum Arrival {
    // So many bytes.
    Bytes(usize),
    // The end of the input.
    End,
    // Nothing yet: the read was interrupted, or would have waited.
    Later(io::Error),
    Failed(io::Error),
}

impl Arrival {
    fn is_later(self) -> bool
        ensures { result ≡ is_later self }
    {
        matches!(self, Arrival::Later(_))
    }
}

// Of a read that gave so many bytes, or an error.
impl From<io::Result<usize>> for Arrival {
    ghost from_gives = { Tells };

    fn from(got: io::Result<usize>) -> Self {
        match got {
            Ok(0) => Arrival::End,
            Ok(n) => Arrival::Bytes(n),
            Err(e) if is_passing(&e) => Arrival::Later(e),
            Err(e) => Arrival::Failed(e),
        }
    }
}

// Whether an error passes by itself.
pub fn is_passing(error: &io::Error) -> bool
    ensures { IsTrue result ↔ IsPassing error.now }
{
    matches!(error.kind(), ErrorKind::Interrupted | ErrorKind::WouldBlock)
}

// Tries that no run uses up: a proved loop has to end.
pub const TRIES: u64 = u64::MAX;

// Reads into these bytes, again where an error passes by itself.
pub fn receive<R: Read>(reader: &mut R, room: &mut [u8]) -> Arrival
    ensures fits { Fits (length room.old) 0 result }
    ensures settled { is_later result ≡ false }
    ensures taken { Consumes (R.remaining reader.old) (R.remaining reader.new) (brought result room.new) }
    ensures end { result ≡ Arrival.End → 0 < length room.old → IsAtEnd (R.remaining reader.new) }
{
    for _ in 0..TRIES {
        let arrival = Arrival::from(reader.read(room));
        if !arrival.is_later() {
            return arrival;
        }
        thread::yield_now();
    }
    Arrival::Failed(ErrorKind::TimedOut.into())
}
