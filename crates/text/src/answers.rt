// The lines of what the functions answer. Each is put into the lent buffer from `at` on, and takes 1024 bytes at most; its end is answered.
ghost use Rattle.std.specs.Prelude.{[], ◌∷◌, ◌≡◌, ◌+◌, ◌≤◌, length};
ghost use Rattle.finder.specs.Finder.{register};
ghost use Rattle.job.specs.Answers.{reply_answer};
ghost use Rattle.job.specs.Calls.{columns as Calls·columns};
ghost use Rattle.refusal.specs.Number.{number};
ghost use Rattle.text.specs.Answered.{found_line, column_count, FewColumns, FewTaps, TapsHeld};
ghost use Rattle.text.specs.Line.{refusal_line, register_line, columns_line};
ghost use Rattle.text.specs.Text.{spaced};
ghost use Rattle.text.specs.Written.{Written};

use crate::writers::{put_byte, put_columns, put_number, put_numbers};
use columns::Columns;
use finder::Register;
use job::Progress;
use refusal::Refusal;

// A letter and the first number.
fn put_head(out: &mut [u8], at: usize, letter: u8, n: u16) -> usize
    requires { at + 7 ≤ length out.old }
    ensures written { Written out.old at (letter ∷ spaced (n ∷ [])) out.new result }
    ensures upper_bound { result ≤ at + 7 }
{
    let start = put_byte(out, at, letter);
    put_number(out, start, n)
}

pub fn refusal_line(out: &mut [u8], at: usize, k: Refusal) -> usize
    requires { at + 1024 ≤ length out.old }
    ensures written { Written out.old at (refusal_line (number k)) out.new result }
    ensures upper_bound { result ≤ at + 1024 }
{
    let end = put_head(out, at, b'E', u32::from(k) as u16);
    put_byte(out, end, b'\n')
}

fn columns_line(out: &mut [u8], at: usize, count: usize, marks: Columns) -> usize
    requires { FewColumns out.old at count marks }
    ensures written { Written out.old at (columns_line (Calls·columns count) marks) out.new result }
    ensures upper_bound { result ≤ at + 1024 }
{
    let head = put_head(out, at, b'F', count as u16);
    let end = put_columns(out, head, marks);
    put_byte(out, end, b'\n')
}

// Nothing is written of a locate that is unfinished.
pub fn reply_line(
    out: &mut [u8],
    at: usize,
    reply: Result<Progress, Refusal>,
    marks: Columns,
) -> usize
    requires { FewColumns out.old at (column_count reply) marks }
    ensures written { Written out.old at (columns_line (reply_answer reply) marks) out.new result }
    ensures upper_bound { result ≤ at + 1024 }
{
    match reply {
        Ok(Progress::Columns(c)) => columns_line(out, at, c, marks),
        Ok(Progress::Unfinished) => at,
        Err(k) => refusal_line(out, at, k),
    }
}

fn taps_line(out: &mut [u8], at: usize, size: usize, alone: bool, taps: &[u16]) -> usize
    requires { FewTaps out.old at size taps.now }
    ensures written { Written out.old at (register_line (register size alone) taps.now) out.new result }
    ensures upper_bound { result ≤ at + 1024 }
{
    let head = put_head(out, at, b'R', size as u16);
    let mark = put_number(out, head, u16::from(alone));
    let end = put_numbers(out, mark, taps);
    put_byte(out, end, b'\n')
}

pub fn found_line(
    out: &mut [u8],
    at: usize,
    found: Result<Register, Refusal>,
    taps: &[u16],
) -> usize
    requires { TapsHeld out.old at found taps.now }
    ensures written { Written out.old at (found_line found taps.now) out.new result }
    ensures upper_bound { result ≤ at + 1024 }
{
    match found {
        Ok(Register { length, alone }) => taps_line(out, at, length, alone, &taps[..length + 1]),
        Err(k) => refusal_line(out, at, k),
    }
}
