// Parts of a run: copies and fills.
#![tactic(auto)]

ghost use Rattle.std.specs.Prelude.{◌≡◌, ℕ, ◌+◌, ◌<◌, ◌≤◌, length, replicate};
ghost use Rattle.std.proofs.lemmas.List.Edits.{sets};
ghost use Rattle.laws.specs.Part.{part};

// Copies n elements of s from `at` on to d from `to` on.
pub fn copy<T: Copy>(d: &mut [T], to: usize, s: &[T], at: usize, n: usize)
    requires { (to + n ≤ length d.old) × (at + n ≤ length s.now) }
    ensures { d.new ≡ sets d.old to (part at n s.now) }
{
    // no copy_from_slice, which calls memmove: a C caller is asked for memcpy and memset alone
    for i in 0..n {
        d[to + i] = s[at + i];
    }
}

// The same from u16 to u32.
pub fn widen(d: &mut [u32], to: usize, s: &[u16], at: usize, n: usize)
    requires { (to + n ≤ length d.old) × (at + n ≤ length s.now) }
    ensures { d.new ≡ sets d.old to (part at n s.now) }
{
    for i in 0..n {
        d[to + i] = u32::from(s[at + i]);
    }
}

// Stores v at the n places from `at` on.
pub fn fill<T: Copy>(d: &mut [T], at: usize, n: usize, v: T)
    requires { at + n ≤ length d.old }
    ensures { d.new ≡ sets d.old at (replicate n v) }
{
    for i in 0..n {
        d[at + i] = v;
    }
}

// Stores v at every place of a run.
pub fn fill_whole<T: Copy>(w: &mut [T], v: T)
    ensures { w.new ≡ replicate (length w.old) v }
{
    let n = w.len();
    fill(w, 0, n, v);
}
