// The rows of a store put into a lent buffer line by line, which is handed to a writer where it is full.
// What stands in each line is proved, in `listing_lines` and `listing_stored`, and here what the lines are together: how many bytes they have, and, at a
// writer whose bytes are known, that they stand behind what it held, with those that the buffer still holds. `written` says whether the writer took all that it
// was handed so far, or why not; where a write failed, nothing more is written.
#![tactic(auto)]

ghost use Rattle.std.specs.Prelude.{◌≡◌, ◌+◌, ◌-◌, ◌*◌, ◌<◌, ◌≤◌, ◌^◌, min, length, take, get_or, [], IsErr, OnOk};
ghost use Rattle.std.specs.Io.KnownBytes.{Appends};
ghost use Rattle.std.proofs.Math.Seq.{slice};
ghost use Rattle.pywr.specs.Store.{elements_of};
ghost use Rattle.listing_lines.specs.Lines.{line_room};
ghost use Rattle.listing_stored.specs.Stored.{store_of};
ghost use Rattle.listing_rows.specs.Rows.{Gathers, line_at, elements_text, row_lines, rows_text, listed_rows};

use listing_lines::{LINE_ROOM, put_element};
use listing_stored::{StoreView, put_stored_row, row_count};
use std::io;
use std::io::Write;

// Where the next line goes, and whether all writes succeeded.
#[derive(Clone, Copy)]
pub struct Room {
    pub at: usize,
    pub written: io::Result<()>,
}

// How many bytes were put, and the room behind them.
#[derive(Clone, Copy)]
pub struct Listed {
    pub bytes: usize,
    pub room: Room,
}

// Writes the bytes in front of the room, unless a write failed before.
pub fn write_out<W: Write>(writer: &mut W, out: &[u8], room: Room) -> io::Result<()>
    requires { room.at ≤ length out.now }
    ensures failed { IsErr room.written → result ≡ room.written }
    ensures text { OnOk result (Appends (W.contents writer.old) (W.contents writer.new) (take room.at out.now)) }
{
    room.written?;
    program_streams::write_all(writer, &out[..room.at])
}

// Room for a line: where fewer than LINE_ROOM bytes are left, writes out what there is.
#[tactic(auto, unfolding(crate::specs::Rows::line_at))]
pub fn spare<W: Write>(writer: &mut W, out: &[u8], room: Room) -> Room
    requires { (line_room ≤ length out.now) × (room.at ≤ length out.now) }
    ensures place { result.at ≡ line_at (length out.now) room.at }
    ensures room { result.at + line_room ≤ length out.now }
    ensures failed { IsErr room.written → result.written ≡ room.written }
    ensures text { OnOk result.written (Gathers (W.contents writer.old) (take room.at out.now) (W.contents writer.new) (take result.at out.now) []) }
{
    if out.len() - room.at < LINE_ROOM {
        return Room {
            at: 0,
            written: write_out(writer, out, room),
        };
    }
    room
}

fn list_elements<W: Write>(
    writer: &mut W,
    out: &mut [u8],
    from: Room,
    store: &StoreView<'_>,
    first: usize,
    end: usize,
) -> Listed
    requires { (line_room ≤ length out.old) × (from.at ≤ length out.old) × (end ≤ length store.now.columns.now) × (end ≤ length store.now.elements.now) × (first ≤ end) × (end < 2 ^ 32) }
    ensures bytes { result.bytes ≡ length (elements_text (elements_of (slice first end store.now.columns.now) (slice first end store.now.elements.now))) }
    ensures within { result.room.at ≤ length out.old }
    ensures most { result.bytes ≤ line_room * (end - first) }
    ensures failed { IsErr from.written → result.room.written ≡ from.written }
    ensures text { OnOk result.room.written (Gathers (W.contents writer.old) (take from.at out.old) (W.contents writer.new) (take result.room.at out.new)
        (elements_text (elements_of (slice first end store.now.columns.now) (slice first end store.now.elements.now)))) }
{
    let mut room = from;
    let mut bytes: usize = 0;
    for i in first..end {
        let line = spare(writer, out, room);
        let column = usize::from(store.columns[i]);
        let at = put_element(out, line.at, column, store.elements[i]);
        bytes += at - line.at;
        room = Room { at, ..line };
    }
    Listed { bytes, room }
}

// Where a row starts among the first `most` elements.
fn start_within(row_starts: &[u32], row: usize, most: usize) -> usize
    requires { row < length row_starts.now }
    ensures value { result ≡ min (get_or row_starts.now row 0) most }
    ensures first { result ≤ most }
    ensures second { result < 2 ^ 32 }
{
    (row_starts[row] as usize).min(most)
}

// A row and its elements, as far as the runs hold them.
fn list_row<W: Write>(
    writer: &mut W,
    out: &mut [u8],
    from: Room,
    store: &StoreView<'_>,
    row: usize,
) -> Listed
    requires { (from.at + line_room ≤ length out.old) × (row < length store.now.row_lower.now) × (row < length store.now.row_upper.now) × (row + 1 < length store.now.row_starts.now) × (row < 2 ^ 32) }
    ensures bytes { result.bytes ≡ length (row_lines (store_of store.now) row) }
    ensures within { result.room.at ≤ length out.old }
    ensures most { result.bytes ≤ 2 ^ 40 }
    ensures failed { IsErr from.written → result.room.written ≡ from.written }
    ensures text { OnOk result.room.written (Gathers (W.contents writer.old) (take from.at out.old) (W.contents writer.new) (take result.room.at out.new) (row_lines (store_of store.now) row)) }
{
    let known = store.columns.len().min(store.elements.len());
    let last = start_within(store.row_starts, row + 1, known);
    let first = start_within(store.row_starts, row, last);
    let at = put_stored_row(out, from.at, store, row, last - first);
    let listed = list_elements(writer, out, Room { at, ..from }, store, first, last);
    Listed {
        bytes: at - from.at + listed.bytes,
        room: listed.room,
    }
}

// How many rows are listed of a store.
#[tactic(auto, unfolding(crate::specs::Rows::listed_rows))]
fn listed_rows(store: &StoreView<'_>) -> usize
    ensures value { result ≡ listed_rows (store_of store.now) }
    ensures lower { result ≤ length store.now.row_lower.now }
    ensures upper { result ≤ length store.now.row_upper.now }
    ensures starts { result ≤ length store.now.row_starts.now - 1 }
    ensures most { result < 131072 }
{
    let starts = store.row_starts.len().saturating_sub(1);
    let bounds = store.row_lower.len().min(store.row_upper.len());
    row_count(store.shape).min(starts).min(bounds)
}

// Puts the rows, each with its elements behind it, behind what stands in front of the room.
pub fn list_rows<W: Write>(
    writer: &mut W,
    out: &mut [u8],
    from: Room,
    store: &StoreView<'_>,
) -> Listed
    requires { (line_room ≤ length out.old) × (from.at ≤ length out.old) }
    ensures bytes { result.bytes ≡ length (rows_text (store_of store.now) (listed_rows (store_of store.now))) }
    ensures within { result.room.at ≤ length out.old }
    ensures most { result.bytes < 2 ^ 57 }
    ensures failed { IsErr from.written → result.room.written ≡ from.written }
    ensures text { OnOk result.room.written (Gathers (W.contents writer.old) (take from.at out.old) (W.contents writer.new) (take result.room.at out.new)
        (rows_text (store_of store.now) (listed_rows (store_of store.now)))) }
{
    let mut room = from;
    let mut bytes: usize = 0;
    for row in 0..listed_rows(store) {
        let line = spare(writer, out, room);
        let listed = list_row(writer, out, line, store, row);
        bytes += listed.bytes;
        room = listed.room;
    }
    Listed { bytes, room }
}
