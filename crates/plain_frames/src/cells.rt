// Declared cells: 2048 marks in 32 words, 256 for each of eight rows. The cell of column i in row h has mark 256·h + i, and mark k is bit k mod 64 of word
// k / 64.
ghost use Rattle.std.specs.Prelude.{◌≡◌, cond, ◌<◌, eqb};
ghost use Rattle.plain_frames.specs.Cells.{read_as};
ghost use Rattle.plain_frames.specs.Frames.{marked};
ghost use Rattle.plain.specs.Written.{Wrote};

use plain::values::{get, put};

// Mark k, 0 or 1; 0 where there is no word for it.
pub fn mark(words: &[u64], k: usize) -> u16
    ensures { result ≡ marked words.now k }
{
    match words.get(k / 64) {
        Some(word) => ((*word >> (k % 64)) % 2) as u16,
        None => 0,
    }
}

// What a cell with this mark is read as.
fn read(mark: u16, v: u16) -> u16
    ensures { result ≡ cond (eqb mark 1) 0 v }
{
    if mark == 1 { 0 } else { v }
}

// The declared cells of a frame, which has at most 2048 cells, become 0.
pub fn clear(words: &[u64], columns: u16, frame: &mut [u16])
    ensures { 0 < columns → Wrote frame.old frame.new 0 2048 (read_as words.now columns frame.old) }
{
    if columns == 0 {
        return;
    }
    let n = usize::from(columns);
    for k in 0..2048usize {
        let v = read(mark(words, 256 * (k / n) + k % n), get(frame, k));
        put(frame, k, v);
    }
}
