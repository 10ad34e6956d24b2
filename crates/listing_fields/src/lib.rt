// The fields of a listing's lines, each put into a buffer that the caller lends. Doubles are the sixteen digits of their bits, all else is decimal.
#![tactic(auto)]

ghost use Rattle.std.specs.Prelude.{◌≡◌, ◌+◌, ◌≤◌, length};
ghost use Rattle.std.specs.Float.{binary64};
ghost use Rattle.std.specs.Float.Ieee.{to_bits};
ghost use Rattle.listing_fields.specs.Fields.{PutWithin, number_field, double_field, letter_field, bounds_fields, head_fields};

// The bits of a double; one pattern for every NaN.
fn bits(x: f64) -> u64
    ensures { result ≡ to_bits binary64 x }
{
    if x.is_nan() {
        0x7ff8000000000000
    } else {
        x.to_bits()
    }
}

// A blank and a number.
pub fn put_number(out: &mut [u8], at: usize, n: usize) -> usize
    requires { at + 21 ≤ length out.old }
    ensures { PutWithin 21 (number_field n) out.old at out.new result }
{
    let a = text::put(out, at, b' ');
    text::put_decimal(out, a, n as u64)
}

// A blank and a double.
pub fn put_double(out: &mut [u8], at: usize, x: f64) -> usize
    requires { at + 17 ≤ length out.old }
    ensures { PutWithin 17 (double_field x) out.old at out.new result }
{
    let a = text::put(out, at, b' ');
    text::put_hex(out, a, bits(x))
}

// A blank and a letter.
pub fn put_letter(out: &mut [u8], at: usize, letter: u8) -> usize
    requires { at + 2 ≤ length out.old }
    ensures { PutWithin 2 (letter_field letter) out.old at out.new result }
{
    let a = text::put(out, at, b' ');
    text::put(out, a, letter)
}

pub fn put_bounds(out: &mut [u8], at: usize, lower: f64, upper: f64) -> usize
    requires { at + 34 ≤ length out.old }
    ensures { PutWithin 34 (bounds_fields lower upper) out.old at out.new result }
{
    let a = put_double(out, at, lower);
    put_double(out, a, upper)
}

// A line's letter and first number.
pub fn put_head(out: &mut [u8], at: usize, letter: u8, n: usize) -> usize
    requires { at + 22 ≤ length out.old }
    ensures { PutWithin 22 (head_fields letter n) out.old at out.new result }
{
    let a = text::put(out, at, letter);
    put_number(out, a, n)
}
