// Prints the page rights of all 1,024 indices, as sixteen lines of 64 hexadecimal digits.
#![tactic(auto)]

ghost use Rattle.std.specs.Prelude.{◌+◌, ◌≤◌};

use entries::table::rights_at;
use std::io;

const LINES: usize = 16;

const DIGITS_OF_A_LINE: usize = 64;

// Prints the line of the indices from first on.
fn print_line(rt: &impl Print, first: usize) -> io::Result<()>
    requires { first + 64 ≤ 1024 }
{
    for low in first..first + DIGITS_OF_A_LINE {
        print!(rt; "{:x}", rights_at(low))?;
    }
    println!(rt; "")
}

fn main(rt: HostRuntime) -> io::Result<()> {
    for line in 0..LINES {
        print_line(&rt, DIGITS_OF_A_LINE * line)?;
    }
    Ok(())
}
