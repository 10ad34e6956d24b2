// The lines of a listing, each put into a buffer that the caller lends.
#![tactic(auto)]

ghost use Rattle.std.specs.Prelude.{◌≡◌, ◌+◌, ◌≤◌, length};
ghost use Rattle.listing_fields.specs.Fields.{PutWithin};
ghost use Rattle.listing_lines.specs.Lines.{line_room, to_maker, kind_letter, programme_line, column_line, maker_fields, row_line, element_line, refusal_line, step_line};

use listing_fields::{put_bounds, put_double, put_head, put_letter, put_number};

// No line is longer.
pub const LINE_ROOM: usize = 192;

// Who made a row first: the maker's kind and index, and how many makers share the row.
#[derive(Clone, Copy)]
pub struct RowMaker {
    pub kind: usize,
    pub index: usize,
    pub shared_by: usize,
}

fn kind_letter(integer: bool) -> u8
    ensures { result ≡ kind_letter integer }
{
    if integer { b'i' } else { b'c' }
}

pub fn put_programme(
    out: &mut [u8],
    at: usize,
    columns: usize,
    rows: usize,
    varying: usize,
    elements: usize,
) -> usize
    requires { at + line_room ≤ length out.old }
    ensures { PutWithin line_room (programme_line columns rows varying elements) out.old at out.new result }
{
    let a = put_head(out, at, b'P', columns);
    let b = put_number(out, a, rows);
    let c = put_number(out, b, varying);
    let d = put_number(out, c, elements);
    text::put(out, d, b'\n')
}

pub fn put_column(
    out: &mut [u8],
    at: usize,
    index: usize,
    integer: bool,
    lower: f64,
    upper: f64,
    cost: f64,
) -> usize
    requires { at + line_room ≤ length out.old }
    ensures { PutWithin line_room (column_line index integer lower upper cost) out.old at out.new result }
{
    let a = put_head(out, at, b'C', index);
    let b = put_letter(out, a, kind_letter(integer));
    let c = put_bounds(out, b, lower, upper);
    let d = put_double(out, c, cost);
    text::put(out, d, b'\n')
}

fn put_maker_fields(out: &mut [u8], at: usize, maker: RowMaker) -> usize
    requires { at + 63 ≤ length out.old }
    ensures { PutWithin 63 (maker_fields (to_maker maker)) out.old at out.new result }
{
    let a = put_number(out, at, maker.kind);
    let b = put_number(out, a, maker.index);
    put_number(out, b, maker.shared_by)
}

pub fn put_row(
    out: &mut [u8],
    at: usize,
    index: usize,
    varying: bool,
    lower: f64,
    upper: f64,
    elements: usize,
    maker: RowMaker,
) -> usize
    requires { at + line_room ≤ length out.old }
    ensures { PutWithin line_room (row_line index varying lower upper elements (to_maker maker)) out.old at out.new result }
{
    let a = put_head(out, at, b'R', index);
    let b = put_number(out, a, usize::from(varying));
    let c = put_bounds(out, b, lower, upper);
    let d = put_number(out, c, elements);
    let e = put_maker_fields(out, d, maker);
    text::put(out, e, b'\n')
}

pub fn put_element(out: &mut [u8], at: usize, column: usize, value: f64) -> usize
    requires { at + line_room ≤ length out.old }
    ensures { PutWithin line_room (element_line column value) out.old at out.new result }
{
    let a = put_head(out, at, b'E', column);
    let b = put_double(out, a, value);
    text::put(out, b, b'\n')
}

pub fn put_refusal(out: &mut [u8], at: usize, number: usize, place: usize) -> usize
    requires { at + line_room ≤ length out.old }
    ensures { PutWithin line_room (refusal_line number place) out.old at out.new result }
{
    let a = put_head(out, at, b'N', number);
    let b = put_number(out, a, place);
    text::put(out, b, b'\n')
}

pub fn put_step(out: &mut [u8], at: usize, k: usize) -> usize
    requires { at + line_room ≤ length out.old }
    ensures { PutWithin line_room (step_line k) out.old at out.new result }
{
    let a = put_head(out, at, b'S', k);
    text::put(out, a, b'\n')
}
