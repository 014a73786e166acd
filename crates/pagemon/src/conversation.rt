// The session with an input and an output: what arrives is obeyed, and what is due is printed (program 8, program 9).
ghost use Rattle.std.specs.Prelude.{cond, false, true, ◌≡◌, ◌+◌, ◌*◌, ◌<◌, ◌≤◌, drop, length};
ghost use Rattle.std.specs.Io.KnownBytes.{Consumes, IsAtEnd};
ghost use Rattle.lines.specs.Lines.{longest_line};
ghost use Rattle.rules.specs.Store.{lent};
ghost use Rattle.steps.specs.Records.{record_bytes};
ghost use Rattle.transcript.specs.Sessions.{zeros};
ghost use Rattle.transcript.specs.Transcript.{batch};
ghost use Rattle.pagemon.specs.Conversation.{Advanced, Answered, Concluded, Fits, is_bad, is_open, most};
ghost use Rattle.pagemon.specs.Printed.{Printed, brought};
ghost use Rattle.pagemon.specs.Session.{session_of};

use crate::arrival::{Arrival, receive};
use crate::output::write_text;
use lines::LONGEST_LINE;
use std::io::{self, Read, Write};
use steps::records::RECORD_BYTES;
use transcript::{BATCH, close, hear};

// The bytes of a batch of records, and of its lines with the one of a bad record. Both have a fixed size: no memory is asked for that could lack.
const INPUT_BYTES: usize = RECORD_BYTES * BATCH;

const TEXT_BYTES: usize = LONGEST_LINE * (BATCH + 1);

// Where the program stands. One enum, since `stands`, `Justified`, `Written` and `Exhausted` of specs are by these cases.
#[derive(Clone, Copy, Debug)]
pub enum State {
    Open,
    // A bad record was found.
    Bad,
    // The input has ended.
    Ended,
    ReadFailed(io::Error),
    WriteFailed(io::Error),
    // As many records were obeyed as the program obeys at most.
    TooLong,
}

impl State {
    fn is_open(self) -> bool
        ensures { result ≡ is_open self }
    {
        matches!(self, State::Open)
    }

    // After bytes have arrived, by whether bad is said.
    fn after(is_over: bool) -> Self
        ensures { result ≡ cond is_over State.Bad State.Open }
    {
        if is_over { State::Bad } else { State::Open }
    }
}

// What is due after a read: a text, up to its end (`Answered` of specs is about lent bytes and this place), and where the program stands then.
#[derive(Drop)]
struct Turn {
    end: usize,
    state: State,
}

// What the program keeps between two reads: memory and ledger, in front of the input the bytes that are not obeyed yet, and how many records were
// obeyed.
#[derive(Drop)]
struct Session<'a> {
    memory: &'a mut [u8],
    ledger: &'a mut [u8],
    input: [u8; INPUT_BYTES],
    kept: usize,
    obeyed: u64,
}

impl Session<'_> {
    // Reads behind the bytes that are kept.
    fn receive<R: Read>(&mut self, reader: &mut R) -> Arrival
        requires { self.old.kept < record_bytes }
        ensures same_memory { self.new.memory.ghost_name ≡ self.old.memory.ghost_name }
        ensures same_ledger { self.new.ledger.ghost_name ≡ self.old.ledger.ghost_name }
        ensures same_session { session_of self.new false ≡ session_of self.old false }
        ensures same_numbers { (self.new.kept ≡ self.old.kept) × (self.new.obeyed ≡ self.old.obeyed) }
        ensures fits { Fits (record_bytes * batch) self.new.kept result }
        ensures taken { Consumes (R.remaining reader.old) (R.remaining reader.new) (brought result (drop self.new.kept self.new.input)) }
        ensures end { result ≡ Arrival.End → IsAtEnd (R.remaining reader.new) }
    {
        let kept = self.kept;
        receive(reader, &mut self.input[kept..])
    }

    // Obeys what has arrived behind the bytes that are kept, and stores what is to be printed (program 9).
    fn answer(&mut self, arrival: Arrival, text: &mut [u8]) -> Turn
        requires fits { Fits (record_bytes * batch) self.old.kept arrival }
        requires kept_lt_record_bytes { self.old.kept < record_bytes }
        requires obeyed_lt_most { (self.old.obeyed < most) × (longest_line * (batch + 1) ≤ length text.old) }
        ensures same_memory { self.new.memory.ghost_name ≡ self.old.memory.ghost_name }
        ensures same_ledger { self.new.ledger.ghost_name ≡ self.old.ledger.ghost_name }
        ensures answered { Answered arrival (session_of self.old false) (drop self.old.kept self.old.input) text.old (session_of self.new (is_bad result.state)) text.new result.end result.state }
        ensures advanced { is_open result.state ≡ true → Advanced self.old.obeyed self.old.kept self.new.obeyed self.new.kept }
        ensures end_in_bounds { result.end ≤ length text.new }
    {
        match arrival {
            Arrival::Bytes(n) => {
                let heard = hear(
                    self.memory,
                    self.ledger,
                    b"",
                    &mut self.input,
                    self.kept + n,
                    self.obeyed,
                    text,
                );
                self.kept = heard.kept;
                self.obeyed = heard.obeyed;
                Turn {
                    end: heard.end,
                    state: State::after(heard.is_over),
                }
            }
            Arrival::End => Turn {
                end: close(self.kept, self.obeyed, text),
                state: State::Ended,
            },
            Arrival::Later(error) | Arrival::Failed(error) => Turn {
                end: 0,
                state: State::ReadFailed(error),
            },
        }
    }
}

// The records after which the program ends: a proved loop has to end, and nothing says that the input does.
const MOST: u64 = 1 << 56;

// Why the program ends, and how many records it obeyed.
#[derive(Drop)]
pub struct Conclusion {
    pub state: State,
    pub obeyed: u64,
}

// Obeys and answers what arrives, until a record is bad, the input ends, reading or writing fails, or the records are as many as they may be.
pub fn converse<R: Read, W: Write>(
    reader: &mut R,
    writer: &mut W,
    memory: &mut [u8],
    ledger: &mut [u8],
) -> Conclusion
    requires { lent memory.old ledger.old ≡ zeros }
    ensures concluded { Concluded (lent memory.new ledger.new) result.obeyed result.state }
    ensures printed { Printed (R.remaining reader.old) (R.remaining reader.new) (W.contents writer.old) (W.contents writer.new) (lent memory.new ledger.new) result.obeyed result.state }
{
    let mut session = Session {
        memory,
        ledger,
        input: [0; INPUT_BYTES],
        kept: 0,
        obeyed: 0,
    };
    let mut text = [0u8; TEXT_BYTES];
    while session.obeyed < MOST {
        let arrival = session.receive(reader);
        let turn = session.answer(arrival, &mut text);
        if let Err(error) = write_text(writer, &text[..turn.end]) {
            return Conclusion {
                state: State::WriteFailed(error),
                obeyed: session.obeyed,
            };
        }
        if !turn.state.is_open() {
            return Conclusion {
                state: turn.state,
                obeyed: session.obeyed,
            };
        }
    }
    Conclusion {
        state: State::TooLong,
        obeyed: session.obeyed,
    }
}
