// Document 01's H, worked out: the greatest common divisor by Euclid, and the least common multiple of the separations, given up once it
// passes the limit of refusal 9.
#![tactic(auto)]

ghost use Rattle.std.specs.Prelude.{◌≡◌, min, get_or};
ghost use Rattle.laws.specs.Multiple.{lcm, lcm_below};
ghost use Rattle.multiple.specs.Greatest.{Greatest};
ghost use Rattle.multiple.specs.Allowed.{Pair, Separations};

// "H is above 1,000,000": the largest that refusal 9 lets through.
pub const MULTIPLE_HIGH: u64 = 1_000_000;

// The greatest common divisor of a and b (of 0 and 0 it is 0).
pub fn gcd(a: u64, b: u64) -> u64
    ensures { Greatest a b result }
{
    let mut x = a;
    let mut y = b;
    while y != 0 {
        let rest = x % y;
        x = y;
        y = rest;
    }
    x
}

// The least common multiple of h and t. Most separations divide the running value, which then stays as it is.
pub fn joined(h: u64, t: u64) -> u64
    requires { Pair h t }
    ensures { result ≡ lcm h t }
{
    let rest = h % t;
    if rest == 0 {
        return h;
    }
    let g = gcd(t, rest);
    h / g * t
}

// The least common multiple of the first `tasks` separations, or 1,000,001 where it is above 1,000,000.
pub fn common_multiple(separation: &[u32; 16], tasks: usize) -> u64
    requires { Separations separation.now tasks }
    ensures { result ≡ min (lcm_below (λ i. get_or separation.now i 0) tasks) 1000001 }
{
    let mut h: u64 = 1;
    for t in &separation[..tasks] {
        h = joined(h, u64::from(*t));
        if MULTIPLE_HIGH < h {
            return MULTIPLE_HIGH + 1;
        }
    }
    h
}
