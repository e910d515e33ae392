// The line of a record: from the bytes got to the text.
ghost use Rattle.std.specs.Prelude.{◌≡◌, ◌+◌, ◌≤◌, length, get_or};
ghost use Rattle.record.specs.Line.{output_of, line_of};
ghost use Rattle.record.specs.Record.{sequences, frame, of_kind, counted_of, body_of, fields_left};
ghost use Rattle.text.specs.Written.{Written};

use crate::parse::whole;
use calls::locate::locate;
use calls::shape::shape;
use finder::find::find;
use heads::states::empty;
use reader::fields;
use refusal::Refusal;
use text::answers::{found_line, refusal_line, reply_line};

// The finder's tap buffer has room for the longest length that it takes.
fn register_line(out: &mut [u8], at: usize, p: u16, lengths: &[u16], symbols: &[u16]) -> usize
    requires { at + 1024 ≤ length out.old }
    ensures written { Written out.old at (output_of (sequences p lengths.now symbols.now)) out.new result }
    ensures upper_bound { result ≤ at + 1024 }
{
    let mut taps = [0u16; 129];
    let found = find(u32::from(p), lengths, symbols, &mut taps);
    found_line(out, at, found, &taps)
}

// The frame is located, with nothing declared, on an empty job that is given its shape with the exponent 1. Refusals of the shape come first.
fn frame_line(out: &mut [u8], at: usize, n: u16, checks: &[u16], symbols: &[u16]) -> usize
    requires { at + 1024 ≤ length out.old }
    ensures written { Written out.old at (output_of (frame n checks.now symbols.now)) out.new result }
    ensures upper_bound { result ≤ at + 1024 }
{
    let head = match shape(empty(), usize::from(n), checks, 1) {
        Ok(head) => head,
        Err(why) => return refusal_line(out, at, why),
    };
    let mut sums = [0u16; 512];
    let mut taps = [0u16; 65];
    let mut held = [0u64; 32];
    let none = [0u64; 32];
    let located = locate(head, &mut sums, &mut taps, &mut held, &none, symbols);
    reply_line(out, at, located.reply, located.columns)
}

// A record by its kind, of the two that there are.
fn parts_line(
    out: &mut [u8],
    at: usize,
    kind: u16,
    n: u16,
    counted: &[u16],
    symbols: &[u16],
) -> usize
    requires { at + 1024 ≤ length out.old }
    ensures written { Written out.old at (output_of (of_kind kind n counted.now symbols.now)) out.new result }
    ensures upper_bound { result ≤ at + 1024 }
{
    if kind == 1 {
        return register_line(out, at, n, counted, symbols);
    }
    frame_line(out, at, n, counted, symbols)
}

// After three fields, one of them n, those that `count` counts and the symbols.
fn counted_line(out: &mut [u8], at: usize, xs: &[u16], n: u16, count: u16) -> usize
    requires { (at + 1024 ≤ length out.old) × (3 ≤ length xs.now) }
    ensures written { Written out.old at (output_of (counted_of (of_kind (get_or xs.now 0 0) n) count xs.now))
        out.new result }
    ensures upper_bound { result ≤ at + 1024 }
{
    let end = 3 + usize::from(count);
    if xs.len() < end {
        return refusal_line(out, at, Refusal::BadRecord);
    }
    parts_line(out, at, xs[0], n, &xs[3..end], &xs[end..])
}

// Kind 1: p, count, lengths, symbols. Kind 2: rows, columns, check counts, symbols.
fn body_line(out: &mut [u8], at: usize, xs: &[u16]) -> usize
    requires { at + 1024 ≤ length out.old }
    ensures written { Written out.old at (output_of (body_of xs.now)) out.new result }
    ensures upper_bound { result ≤ at + 1024 }
{
    if xs.len() < 3 {
        return refusal_line(out, at, Refusal::BadRecord);
    }
    if xs[0] == 1 {
        return counted_line(out, at, xs, xs[1], xs[2]);
    }
    if xs[0] == 2 {
        return counted_line(out, at, xs, xs[2], xs[1]);
    }
    refusal_line(out, at, Refusal::BadRecord)
}

// The line of the bytes got of a record, its two length bytes first, put into `out` from `at` on; and where it ends.
// Scratch entries are lent for the fields: those of a whole record, from its kind on, are left there.
pub fn line(bytes: &[u8], scratch: &mut [u16], out: &mut [u8], at: usize) -> usize
    requires { (32768 ≤ length scratch.old) × (at + 1024 ≤ length out.old) }
    ensures written { Written out.old at (line_of bytes.now) out.new result }
    ensures upper_bound { result ≤ at + 1024 }
    ensures scratch_after { scratch.new ≡ fields_left bytes.now scratch.old }
{
    if !whole(bytes) {
        return refusal_line(out, at, Refusal::BadRecord);
    }
    let n = fields(&bytes[2..], scratch);
    body_line(out, at, &scratch[0..n])
}
