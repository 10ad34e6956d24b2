// The rows of a store written to a writer by their makers, in words, one row a line.
// The functions here answer how many bytes the lines have together. Where the writer's bytes are known, the lines stand behind what it held before, whole.
// That the bytes of a file or a pipe go out is not stated: output is outside the logic. Where a write fails the answer says why, and the rest is not written.
#![tactic(auto)]

ghost use Rattle.std.specs.Prelude.{◌≡◌, ◌+◌, ◌≤◌, length, OnOk};
ghost use Rattle.std.specs.Io.KnownBytes.{Appends};
ghost use Rattle.pywr.specs.Store.{Store, row_count};
ghost use Rattle.listing_fields.specs.Fields.{PutWithin};
ghost use Rattle.listing_lines.specs.Lines.{line_room, to_maker};
ghost use Rattle.listing_makers.specs.Makers.{kind_words, shared_words, maker_line, makers_text, maker_text};

use layout::{BY_AGGREGATE, BY_MASS, BY_NODE, BY_VIRTUAL_STORAGE};
use listing::Output;
use listing_fields::put_number;
use listing_lines::{LINE_ROOM, RowMaker};
use listing_rows::{Room, spare, write_out};
use listing_stored::{row_count, row_maker};
use program_streams::write_all;
use pywr::Reason;
use std::io::Write;
use text::put_all;

// What a buffer of lines holds.
const BUFFER_LENGTH: usize = 65536;

// The kinds in the width of a maker's numbers.
const MASS: usize = BY_MASS as usize;

const NODE: usize = BY_NODE as usize;

const AGGREGATE: usize = BY_AGGREGATE as usize;

const VIRTUAL_STORAGE: usize = BY_VIRTUAL_STORAGE as usize;

// The words of a kind; a number that is no kind reads as the last one.
#[tactic(auto, unfolding(crate::specs::Makers::kind_words))]
fn kind_words(kind: usize) -> &'static [u8]
    ensures words { result.now ≡ kind_words kind }
    ensures most { length result.now ≤ 24 }
{
    match kind {
        MASS => b"mass balance of node",
        NODE => b"node",
        AGGREGATE => b"aggregate",
        VIRTUAL_STORAGE => b"virtual storage",
        _ => b"exclusivity of aggregate",
    }
}

// How many share a row, at most 11 bytes and a number's 21.
fn put_shared(out: &mut [u8], at: usize, shared_by: usize) -> usize
    requires { at + 32 ≤ length out.old }
    ensures { PutWithin 32 (shared_words shared_by) out.old at out.new result }
{
    if shared_by == 1 {
        return at;
    }
    let a = put_all(out, at, b", shared by");
    put_number(out, a, shared_by)
}

// The line of a row.
fn put_maker(out: &mut [u8], at: usize, row: usize, maker: RowMaker) -> usize
    requires { at + line_room ≤ length out.old }
    ensures { PutWithin line_room (maker_line row (to_maker maker)) out.old at out.new result }
{
    let a = put_all(out, at, b"row");
    let b = put_number(out, a, row);
    let c = put_all(out, b, b": ");
    let d = put_all(out, c, kind_words(maker.kind));
    let e = put_number(out, d, maker.index);
    let f = put_shared(out, e, maker.shared_by);
    text::put(out, f, b'\n')
}

// Writes the line of each row.
pub fn list_makers<W: Write>(writer: &mut W, shape: &[u16]) -> Output
    ensures bytes { (s : Store) → s.shape ≡ shape.now → result.bytes ≡ length (makers_text s (row_count s)) }
    ensures text { (s : Store) → s.shape ≡ shape.now
        → OnOk result.written (Appends (W.contents writer.old) (W.contents writer.new) (makers_text s (row_count s))) }
{
    let mut out = [0u8; BUFFER_LENGTH];
    let mut room = Room {
        at: 0,
        written: Ok(()),
    };
    let mut bytes: usize = 0;
    for row in 0..row_count(shape) {
        let line = spare(writer, &out, room);
        let at = put_maker(&mut out, line.at, row, row_maker(shape, row));
        bytes += at - line.at;
        room = Room { at, ..line };
    }
    Output {
        bytes,
        written: write_out(writer, &out, room),
    }
}

// Writes the line of one row, or the N line of a row that is not there.
pub fn list_maker<W: Write>(writer: &mut W, shape: &[u16], row: usize) -> Output
    ensures bytes { (s : Store) → s.shape ≡ shape.now → result.bytes ≡ length (maker_text s row) }
    ensures text { (s : Store) → s.shape ≡ shape.now
        → OnOk result.written (Appends (W.contents writer.old) (W.contents writer.new) (maker_text s row)) }
{
    if row_count(shape) <= row {
        return listing::list_refusal(writer, Reason::NoSuchRow.at(row));
    }
    let mut out = [0u8; LINE_ROOM];
    let end = put_maker(&mut out, 0, row, row_maker(shape, row));
    Output {
        bytes: end,
        written: write_all(writer, &out[..end]),
    }
}
