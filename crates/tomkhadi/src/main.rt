// The program: reads records from standard input and writes a line for each.
#![tactic(auto)]

ghost use Rattle.std.specs.Prelude.{◌≡◌, IfOk, OnErr};
ghost use Rattle.tomkhadi.specs.Ran.{BrokenOff, Ran};
ghost use Rattle.tomkhadi.specs.Turned.{Turned};
ghost use Rattle.window.specs.Window.{Ready, Roomy, is_over};

use std::io;
use std::io::{Stdin, Stdout};
use window::input::{Window, filled};
use window::output::put_lines;

// Reads until the next line is due, and writes the lines that are due. So whoever sends a record and waits gets its line.
// Where the write fails the turn is made all the same, and some of the bytes that it hands over may be written.
fn turn(
    input: Stdin,
    output: Stdout,
    buffer: &mut [u8],
    w: Window,
    scratch: &mut [u16],
    out: &mut [u8],
) -> io::Result<Window>
    requires { Ready w buffer.old scratch.old out.old }
    ensures ok { IfOk result (λ r. Turned buffer.old w buffer.new out.new r) }
    ensures err { OnErr result ((r : Window) × Turned buffer.old w buffer.new out.new r) }
{
    let full = filled(input, buffer, w);
    let put = put_lines(buffer, full, scratch, out);
    let used = put.used;
    output.write_all(&out[0..used])?;
    Ok(Window {
        start: put.start,
        end: full.end,
        more: full.more,
    })
}

// The input has ended, and all of it is used.
fn is_over(w: Window) -> bool
    ensures { result ≡ is_over w }
{
    if w.more {
        return false;
    }
    w.start == w.end
}

// Turns until it is over. A loop has to end for its proof, so it counts its turns down, from a number that no run uses up.
fn run(
    input: Stdin,
    output: Stdout,
    buffer: &mut [u8],
    scratch: &mut [u16],
    out: &mut [u8],
) -> io::Result<Window>
    requires { Roomy buffer.old scratch.old out.old }
    ensures ok { IfOk result (λ r. Ran buffer.new r) }
    ensures err { OnErr result ((r : Window) × BrokenOff buffer.new r) }
{
    let mut w = Window {
        start: 0,
        end: 0,
        more: true,
    };
    let mut turns = u64::MAX;
    while turns > 0 {
        w = turn(input, output, buffer, w, scratch, out)?;
        if is_over(w) {
            break;
        }
        turns -= 1;
    }
    Ok(w)
}

fn main(rt: HostRuntime) -> io::Result<()> {
    let mut buffer = [0u8; 131072];
    let mut scratch = [0u16; 32768];
    let mut out = [0u8; 65536];
    run(rt.stdin(), rt.stdout(), &mut buffer, &mut scratch, &mut out)?;
    Ok(())
}
