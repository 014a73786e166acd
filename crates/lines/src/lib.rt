// The lines that the program prints (program 4, program 5), and a text in lent bytes to which they are added.
#![tactic(auto)]

ghost use Rattle.std.specs.Prelude.{◌≡◌, [], ◌∷◌, ◌++◌, ◌+◌, ◌-◌, ◌<◌, ◌≤◌, length};
ghost use Rattle.lines.specs.Decimal.{decimal};
ghost use Rattle.lines.specs.Lines.{text_of, longest_line, fitting};
ghost use Rattle.lines.specs.Stored.{Stored};
ghost use Rattle.lines.specs.Added.{Added};

use words::put_bytes;

#[derive(Clone, Copy, Debug, PartialEq, Eq)]
pub enum Line {
    // A call and its answer.
    Answer(u8, u32),
    // A call, its answer, and the byte that it gives.
    AnswerWithByte(u8, u32, u8),
    // How many records were obeyed before a bad one.
    Bad(u64),
}

// No line is longer: `bad`, a space, twenty digits and a line feed.
pub const LONGEST_LINE: usize = 25;

// Stores a byte at a place and gives the place after it; the three functions below store more bytes in the same way. As methods of `Text` they would
// store `end` after each byte (docs/PERFORMANCE.md, "Today's forms").
fn put_byte(text: &mut [u8], at: usize, byte: u8) -> usize
    requires { at < length text.old }
    ensures { Stored text.old at (byte ∷ []) text.new result }
{
    text[at] = byte;
    at + 1
}

// By hand: std does not say that a `write!` succeeds where its writer does, and a line that fits is stored.
fn put_decimal(text: &mut [u8], at: usize, v: u64) -> usize
    requires { at + length (decimal v) ≤ length text.old }
    ensures { Stored text.old at (decimal v) text.new result }
{
    if v < 10 {
        return put_byte(text, at, b'0' + v as u8);
    }
    let end = put_decimal(text, at, v / 10);
    put_byte(text, end, b'0' + (v % 10) as u8)
}

// A number and the character after it.
fn put_number(text: &mut [u8], at: usize, v: u64, after: u8) -> usize
    requires { at + length (decimal v) < length text.old }
    ensures { Stored text.old at (decimal v ++ (after ∷ [])) text.new result }
{
    let end = put_decimal(text, at, v);
    put_byte(text, end, after)
}

// A line, where there is room for the longest.
fn put_line(text: &mut [u8], at: usize, line: Line) -> usize
    requires { longest_line ≤ length text.old - at }
    ensures { Stored text.old at (text_of line) text.new result }
{
    match line {
        Line::Answer(call, answer) => {
            let after_call = put_number(text, at, u64::from(call), b' ');
            put_number(text, after_call, u64::from(answer), b'\n')
        }
        Line::AnswerWithByte(call, answer, byte) => {
            let after_call = put_number(text, at, u64::from(call), b' ');
            let after_answer = put_number(text, after_call, u64::from(answer), b' ');
            put_number(text, after_answer, u64::from(byte), b'\n')
        }
        Line::Bad(obeyed) => {
            let bad = b"bad ";
            put_bytes(text, at, bad);
            put_number(text, at + bad.len(), obeyed, b'\n')
        }
    }
}

// A text in lent bytes, and the place after it, where more is added.
#[derive(Drop)]
pub struct Text<'a> {
    pub bytes: &'a mut [u8],
    pub end: usize,
}

impl Text<'_> {
    // Adds a line, where there is room for the longest, else nothing. Compiled into its callers, so that they keep `end` in a register: a call would load
    // and store it for each line. `always`, since it is too large for the hint alone.
    #[inline(always)]
    pub fn push_line(&mut self, line: Line)
        ensures same_reference { self.new.bytes.ghost_name ≡ self.old.bytes.ghost_name }
        ensures added { Added self.old self.new (fitting (length self.old.bytes.now - self.old.end) line) }
    {
        if self.bytes.len().saturating_sub(self.end) >= LONGEST_LINE {
            self.end = put_line(self.bytes, self.end, line);
        }
    }
}
