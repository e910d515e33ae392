// The bytes read from standard input and not yet used: a window of a lent buffer, which moves along it and is filled again.
ghost use Rattle.std.specs.Prelude.{◌≡◌, ◌+◌, ◌≤◌, length, take, drop};
ghost use Rattle.window.specs.Window.{Inside, Filled, Refilled, is_lacking};

use record::parse::claimed;
use std::io::{Read, Stdin};

// The bytes from `start` to `end` are still to be used, and the input may have more.
#[derive(Clone, Copy)]
pub struct Window {
    pub start: usize,
    pub end: usize,
    pub more: bool,
}

// Moves n bytes from `from` on to the front of the buffer.
fn move_down(buffer: &mut [u8], from: usize, n: usize)
    requires { from + n ≤ length buffer.old }
    ensures { take n buffer.new ≡ take n (drop from buffer.old) }
{
    for i in 0..n {
        buffer[i] = buffer[from + i];
    }
}

// One read, of what is there; 0 at the end of the input and where it fails.
fn read(mut input: Stdin, part: &mut [u8]) -> usize
    ensures { result ≤ length part.new }
{
    input.read(part).unwrap_or(0)
}

fn refilled(input: Stdin, buffer: &mut [u8], w: Window) -> Window
    requires { Inside w buffer.old }
    ensures { Refilled buffer.old w buffer.new result }
{
    let from = w.start;
    let kept = w.end - from;
    move_down(buffer, from, kept);
    let got = read(input, &mut buffer[kept..]);
    Window {
        start: 0,
        end: kept + got,
        more: got > 0,
    }
}

// The window starts with less than a record claims, and the input may have more.
pub fn lacking(buffer: &[u8], w: Window) -> bool
    requires { Inside w buffer.now }
    ensures { result ≡ is_lacking w buffer.now }
{
    if !w.more {
        return false;
    }
    let a = w.start;
    let e = w.end;
    e - a < 2 + claimed(&buffer[a..e])
}

// A window that starts with a whole record, unless the input has no more.
pub fn filled(input: Stdin, buffer: &mut [u8], w: Window) -> Window
    requires { Inside w buffer.old }
    ensures { Filled buffer.old w buffer.new result }
{
    let mut r = w;
    while lacking(buffer, r) {
        r = refilled(input, buffer, r);
    }
    r
}
