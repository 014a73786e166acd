// The output, and one line on standard error where reading or writing fails (program 8).
ghost use Rattle.std.specs.Prelude.{OnErr, OnOk};
ghost use Rattle.std.specs.Io.KnownBytes.{Appends};
ghost use Rattle.pagemon.specs.Printed.{AppendsPart};

use crate::arrival::{TRIES, is_passing};
use crate::conversation::State;
use std::io::{self, Cursor, ErrorKind, Write};
use std::thread;

// Writes a text, and fails where not all of it was taken. A write that an error stops which passes by itself is tried again.
pub fn write_text<W: Write>(writer: &mut W, text: &[u8]) -> io::Result<()>
    ensures written { OnOk result (Appends (W.contents writer.old) (W.contents writer.new) text.now) }
    ensures part { OnErr result (AppendsPart (W.contents writer.old) (W.contents writer.new) text.now) }
{
    let mut rest = text;
    let mut tries = TRIES;
    while !rest.is_empty() {
        match writer.write(rest) {
            Ok(0) => return Err(ErrorKind::WriteZero.into()),
            Ok(n) => rest = &rest[n..],
            Err(e) if tries > 0 && is_passing(&e) => {
                thread::yield_now();
                tries -= 1;
            }
            Err(e) => return Err(e),
        }
    }
    writer.flush()
}

// The most bytes of an error's text that are said.
const REASON_BYTES: usize = 256;

// The reason in the text of an error, which ends in the system's number of it.
fn reason_in(text: &[u8]) -> &str {
    let text = str::from_utf8(text).unwrap_or("");
    match text.split_once(" (os error ") {
        Some((reason, _)) => reason,
        None => text,
    }
}

// Says on standard error what has failed, after how many records, and why. Where standard error takes no line, nothing is said.
fn tell(rt: &impl Eprint, what: &str, obeyed: u64, error: io::Error) {
    let mut text = Cursor::new([0u8; REASON_BYTES]);
    let _ = write!(text, "{error}");
    let end = text.position() as usize;
    let reason = reason_in(text.get_ref().get(..end).unwrap_or(&[]));
    let _ = eprintln!(rt; "pagemon: {what} failed, records obeyed: {obeyed}: {reason}");
}

// A line on standard error, where a failure has stopped the program: with the reason that the system gives, if it has one.
pub fn report(rt: &impl Eprint, state: State, obeyed: u64) {
    match state {
        State::ReadFailed(error) => tell(rt, "read", obeyed, error),
        State::WriteFailed(error) => tell(rt, "write", obeyed, error),
        State::TooLong => {
            let _ = eprintln!(rt; "pagemon: input too long, records obeyed: {obeyed}");
        }
        _ => {}
    }
}
