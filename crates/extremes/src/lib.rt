// The smaller and the larger of two doubles, the first where they are equal.
#![tactic(auto)]

ghost use Rattle.std.specs.Prelude.{◌≡◌};
ghost use Rattle.pywr.specs.Numbers.{lesser, greater};

pub fn lesser(held: f64, x: f64) -> f64
    ensures { result ≡ lesser held x }
{
    if x < held { x } else { held }
}

pub fn greater(held: f64, x: f64) -> f64
    ensures { result ≡ greater held x }
{
    if held < x { x } else { held }
}
