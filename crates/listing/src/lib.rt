// A stored programme written to a writer, one item a line; the line of a refusal; the line of a step.
// The functions here answer how many bytes the text has that they hand to the writer. Where its bytes are known, the text stands behind what it held before,
// whole. That the bytes of a file or a pipe go out is not stated: output is outside the logic. Where a write fails the answer says why, and the rest is not written.
#![tactic(auto)]

ghost use Rattle.std.specs.Prelude.{◌≡◌, ◌+◌, ◌<◌, ◌≤◌, ◌^◌, length, take, OnOk};
ghost use Rattle.std.specs.Io.KnownBytes.{Appends};
ghost use Rattle.listing_lines.specs.Lines.{line_room, refusal_line, step_line};
ghost use Rattle.listing_stored.specs.Stored.{store_of};
ghost use Rattle.listing_rows.specs.Rows.{Gathers};
ghost use Rattle.listing.specs.Listing.{columns_text, listed_columns, programme_text};

use layout::{EDGE_COLUMN_COUNT_AT, SET_COUNT_AT};
use listing_lines::{LINE_ROOM, put_refusal, put_step};
use listing_rows::{Listed, Room, list_rows, spare, write_out};
use listing_stored::{StoreView, put_counts, put_stored_column, word};
use program_streams::write_all;
use pywr::Refusal;
use std::io;
use std::io::Write;

// What a buffer of lines holds.
const BUFFER_LENGTH: usize = 65536;

// How many bytes a text has, and whether the writer took them all, or why not.
#[derive(Clone, Copy)]
pub struct Output {
    pub bytes: usize,
    pub written: io::Result<()>,
}

// How many columns are listed of a store.
#[tactic(auto, unfolding(crate::specs::Listing::listed_columns))]
fn listed_columns(store: &StoreView<'_>) -> usize
    ensures value { result ≡ listed_columns (store_of store.now) }
    ensures lower { result ≤ length store.now.col_lower.now }
    ensures upper { result ≤ length store.now.col_upper.now }
    ensures cost { result ≤ length store.now.col_obj_coef.now }
    ensures most { result < 131072 }
{
    let columns = word(store.shape, EDGE_COLUMN_COUNT_AT) + word(store.shape, SET_COUNT_AT);
    let upper = store.col_upper.len().min(store.col_obj_coef.len());
    columns.min(store.col_lower.len()).min(upper)
}

fn list_columns<W: Write>(
    writer: &mut W,
    out: &mut [u8],
    from: usize,
    store: &StoreView<'_>,
) -> Listed
    requires { (line_room ≤ length out.old) × (from ≤ length out.old) }
    ensures bytes { result.bytes ≡ length (columns_text (store_of store.now) (listed_columns (store_of store.now))) }
    ensures within { result.room.at ≤ length out.old }
    ensures most { result.bytes < 2 ^ 25 }
    ensures text { OnOk result.room.written (Gathers (W.contents writer.old) (take from out.old) (W.contents writer.new) (take result.room.at out.new)
        (columns_text (store_of store.now) (listed_columns (store_of store.now)))) }
{
    let mut room = Room {
        at: from,
        written: Ok(()),
    };
    let mut bytes: usize = 0;
    for c in 0..listed_columns(store) {
        let line = spare(writer, out, room);
        let at = put_stored_column(out, line.at, store, c);
        bytes += at - line.at;
        room = Room { at, ..line };
    }
    Listed { bytes, room }
}

// Writes the programme of a store: its P line, its C lines, and each R line with its E lines; of a misshapen store, what its runs hold.
pub fn list_programme<W: Write>(writer: &mut W, store: &StoreView<'_>) -> Output
    ensures bytes { result.bytes ≡ length (programme_text (store_of store.now)) }
    ensures text { OnOk result.written (Appends (W.contents writer.old) (W.contents writer.new) (programme_text (store_of store.now))) }
{
    let mut out = [0u8; BUFFER_LENGTH];
    let counts = put_counts(&mut out, 0, store);
    let columns = list_columns(writer, &mut out, counts, store);
    let rows = list_rows(writer, &mut out, columns.room, store);
    Output {
        bytes: counts + columns.bytes + rows.bytes,
        written: write_out(writer, &out, rows.room),
    }
}

// Writes the N line of a refusal.
pub fn list_refusal<W: Write>(writer: &mut W, refusal: Refusal) -> Output
    ensures bytes { result.bytes ≡ length (refusal_line refusal.number refusal.place) }
    ensures text { OnOk result.written (Appends (W.contents writer.old) (W.contents writer.new) (refusal_line refusal.number refusal.place)) }
{
    let mut out = [0u8; LINE_ROOM];
    let end = put_refusal(&mut out, 0, usize::from(refusal.number), refusal.place);
    Output {
        bytes: end,
        written: write_all(writer, &out[..end]),
    }
}

// Writes the S line of step k, which stands in front of its listing or refusal.
pub fn list_step<W: Write>(writer: &mut W, k: usize) -> Output
    ensures bytes { result.bytes ≡ length (step_line k) }
    ensures text { OnOk result.written (Appends (W.contents writer.old) (W.contents writer.new) (step_line k)) }
{
    let mut out = [0u8; LINE_ROOM];
    let end = put_step(&mut out, 0, k);
    Output {
        bytes: end,
        written: write_all(writer, &out[..end]),
    }
}
