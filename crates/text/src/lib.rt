// Text gathered in a buffer that the caller lends.
#![tactic(auto)]

ghost use Rattle.std.specs.Prelude.{◌≡◌, ◌<◌, ◌≤◌, ◌+◌, List, [], ◌∷◌, length};
ghost use Rattle.text.specs.Text.{Put, DecimalPut, sixteen_digits};

// Puts one byte at `at`, and answers the place behind it.
pub fn put(out: &mut [u8], at: usize, b: u8) -> usize
    requires { at < length out.old }
    ensures { Put (b ∷ []) out.old at out.new result }
{
    out[at] = b;
    at + 1
}

// Puts the bytes of s from `at` on.
pub fn put_all(out: &mut [u8], at: usize, s: &[u8]) -> usize
    requires { at + length s.now ≤ length out.old }
    ensures { Put s.now out.old at out.new result }
{
    let end = at + s.len();
    out[at..end].copy_from_slice(s);
    end
}

// Puts n in decimal digits, the fewest that hold it.
pub fn put_decimal(out: &mut [u8], at: usize, n: u64) -> usize
    requires { at + 20 ≤ length out.old }
    ensures { DecimalPut n out.old at out.new result }
{
    let mut digits = [0u8; 20];
    let k = io::decimal(n, &mut digits);
    put_all(out, at, &digits[..k])
}

// Puts n in sixteen hexadecimal digits.
pub fn put_hex(out: &mut [u8], at: usize, n: u64) -> usize
    requires { at + 16 ≤ length out.old }
    ensures { Put (sixteen_digits n) out.old at out.new result }
{
    let mut digits = [0u8; 16];
    let k = io::hex(n, 16, &mut digits);
    put_all(out, at, &digits[..k])
}
