// The fields of a record: little-endian numbers and bit patterns, doubles, and each field of the network file with its refusal.
#![tactic(auto)]

ghost use Rattle.std.specs.Prelude.{◌≡◌, ◌+◌, ◌*◌, ◌<◌, ◌≤◌, length};
ghost use Rattle.pywr.specs.Bytes.{le16, le32, le64, within};
ghost use Rattle.pywr.specs.NetworkFile.{active_fits};
ghost use Rattle.pywr.specs.Numbers.{is_flow, is_small, of_pattern};
ghost use Rattle.fields.specs.Field.{flag, byte_field, node_field, active_field, check_factor};

use pywr::{Reason, Refusal};

pub fn u16_at(s: &[u8], at: usize) -> u16
    requires { at + 2 ≤ length s.now }
    ensures { result ≡ le16 s.now at }
{
    u16::from_le_bytes(s[at..at + 2].try_into().unwrap())
}

pub fn u32_at(s: &[u8], at: usize) -> u32
    requires { at + 4 ≤ length s.now }
    ensures { result ≡ le32 s.now at }
{
    u32::from_le_bytes(s[at..at + 4].try_into().unwrap())
}

pub fn u64_at(s: &[u8], at: usize) -> u64
    requires { at + 8 ≤ length s.now }
    ensures { result ≡ le64 s.now at }
{
    u64::from_le_bytes(s[at..at + 8].try_into().unwrap())
}

// Whether n bytes stand in the file from `at`.
pub fn is_within(s: &[u8], at: usize, n: usize) -> bool
    ensures { result ≡ within s.now at n }
{
    at <= s.len() && n <= s.len() - at
}

// A byte from `least` to `most`.
#[tactic(auto, unfolding(crate::specs::Field::byte_field, pywr::specs::NetworkFile::between))]
pub fn byte_field(
    s: &[u8],
    place: usize,
    at: usize,
    least: usize,
    most: usize,
) -> Result<usize, Refusal>
    ensures { result ≡ byte_field s.now place at least most }
{
    if s.len() <= at {
        return Err(Reason::FileEnds.at(place));
    }
    let x = usize::from(s[at]);
    if x < least || most < x {
        return Err(Reason::OutOfRange.at(place));
    }
    Ok(x)
}

// A node's number.
#[tactic(auto, unfolding(crate::specs::Field::node_field))]
pub fn node_field(s: &[u8], place: usize, at: usize, nodes: usize) -> Result<usize, Refusal>
    ensures { result ≡ node_field s.now place at nodes }
{
    if !is_within(s, at, 2) {
        return Err(Reason::FileEnds.at(place));
    }
    let x = usize::from(u16_at(s, at));
    if nodes <= x {
        return Err(Reason::NoSuchNode.at(place));
    }
    Ok(x)
}

#[tactic(auto, unfolding(pywr::specs::NetworkFile::active_fits))]
fn active_fits(exclusive: bool, least: usize, n: usize) -> bool
    ensures { result ≡ active_fits (flag exclusive) least n }
{
    least <= n && (exclusive || n == 0)
}

// min_active, or max_active with min_active as `least`.
#[tactic(auto, unfolding(crate::specs::Field::active_field))]
pub fn active_field(
    s: &[u8],
    place: usize,
    at: usize,
    exclusive: bool,
    least: usize,
) -> Result<usize, Refusal>
    ensures { result ≡ active_field s.now place at (flag exclusive) least }
{
    if !is_within(s, at, 4) {
        return Err(Reason::FileEnds.at(place));
    }
    let x = u32_at(s, at) as usize;
    if !active_fits(exclusive, least, x) {
        return Err(Reason::OutOfRange.at(place));
    }
    Ok(x)
}

// The pattern is no NaN's: without its sign it is at most infinity's.
pub fn is_flow(bits: u64) -> bool
    ensures { result ≡ is_flow bits }
{
    bits % 9223372036854775808 <= 9218868437227405312
}

// A cost, volume or factor: magnitude at most 1e12. Twice the pattern, which has lost its sign, is at most twice 1e12's. (A mask of the sign in its place
// is compiled to two loads.)
pub fn is_small(bits: u64) -> bool
    ensures { result ≡ is_small bits }
{
    bits.wrapping_add(bits) <= 9573022409280192512
}

// The factor of a virtual storage's part, and where the bytes after it start.
#[tactic(auto, unfolding(crate::specs::Field::check_factor))]
pub fn check_factor(s: &[u8], place: usize, at: usize) -> Result<usize, Refusal>
    ensures { result ≡ check_factor s.now place at }
{
    if !is_within(s, at, 8) {
        return Err(Reason::FileEnds.at(place));
    }
    if !is_small(u64_at(s, at)) {
        return Err(Reason::OutOfRange.at(place));
    }
    Ok(at + 8)
}

fn of_pattern(bits: u64) -> f64
    ensures { result ≡ of_pattern bits }
{
    if is_flow(bits) {
        f64::from_bits(bits)
    } else {
        f64::NAN
    }
}

pub fn f64_at(s: &[u8], at: usize) -> f64
    requires { at + 8 ≤ length s.now }
    ensures { result ≡ of_pattern (le64 s.now at) }
{
    of_pattern(u64_at(s, at))
}
