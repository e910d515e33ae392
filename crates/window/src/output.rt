// What the program does between reading and writing: the lines of the records in a window of the input.
ghost use Rattle.std.specs.Prelude.{◌≡◌};
ghost use Rattle.lines.specs.Lines.{next_size};
ghost use Rattle.window.specs.Lined.{Lined};
ghost use Rattle.window.specs.Window.{Ready};

use crate::input::Window;
use record::line::line;
use record::parse::claimed;

// Where the lines that were put end, and where the bytes start that are still to be used.
#[derive(Clone, Copy)]
pub struct Put {
    pub start: usize,
    pub used: usize,
}

// How many of the bytes are to be used for the next line; 0 where none is due.
fn next_size(bytes: &[u8], more: bool) -> usize
    ensures { result ≡ next_size more bytes.now }
{
    let whole = 2 + claimed(bytes);
    if whole <= bytes.len() {
        return whole;
    }
    if more {
        return 0;
    }
    bytes.len()
}

// The lines that are due, from the start of `out` on, as long as the next one is sure to fit.
pub fn put_lines(buffer: &[u8], w: Window, scratch: &mut [u16], out: &mut [u8]) -> Put
    requires { Ready w buffer.now scratch.old out.old }
    ensures { Lined buffer.now w out.new result }
{
    let end = w.end;
    let more = w.more;
    let mut start = w.start;
    let mut used = 0;
    while used <= out.len() - 1024 {
        let size = next_size(&buffer[start..end], more);
        if size == 0 {
            break;
        }
        let next = start + size;
        used = line(&buffer[start..next], scratch, out, used);
        start = next;
    }
    Put { start, used }
}
