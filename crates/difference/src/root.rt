// The power of fat and salt. Document 01, "Standardizing value and difference".
ghost use Rattle.std.specs.Prelude.{◌≡◌, ◌<◌, ◌≤◌, ◌^◌};
ghost use Rattle.field.specs.Refused.{MOST};
ghost use Rattle.difference.specs.Difference.{root_of};

// 1, in the fractions that t has.
const ONE: u64 = 32_768;

// A part t of a.
fn part(a: u64, t: u64) -> u64
    requires { (a < 2 ^ 32) × (t < 2 ^ 15) }
    ensures { result ≤ a }
{
    a * t / ONE
}

// 10^3.5 times the fourth root of 1, 2, 4 or 8, in 2^-10.
fn scale(twos: u32) -> u64
    ensures { result < 2 ^ 23 }
{
    match twos {
        0 => 3_238_172,
        1 => 3_850_858,
        2 => 4_579_467,
        _ => 5_445_935,
    }
}

// A first guess at q. For every mean from 1 on it is at most 1 off, but nothing hangs on that:
// `root` mends it, whatever it is. So nothing is said of it.
fn guess(m: u16) -> u16 {
    // m is 2^twos times 1 + t
    let zeros = m.leading_zeros() % 16;
    let twos = 15 - zeros;
    let t = ((m as u64) << zeros) % ONE;
    // the fourth root of 1 + t, in 2^-30
    let a = 39_968_789 - part(9_613_669, t);
    let b = 94_994_528 - part(a, t);
    let c = 267_778_564 - part(b, t);
    let d = 1_073_754_768 + part(c, t);
    let q = (d * scale(twos % 4) << (twos / 4)) >> 40;
    (q % 65536) as u16
}

fn fourth(q: u16) -> u64
    ensures { result ≡ q ^ 4 }
{
    (q as u64).pow(4)
}

// The largest whole q with q^4 at most 10^14 for each hundredth of the mean `m`.
pub fn root(m: u16) -> u32
    requires { m ≤ MOST }
    ensures { result ≡ root_of m }
{
    let bound = m as u64 * 100_000_000_000_000;
    let mut q = guess(m);
    while bound < fourth(q) {
        q -= 1;
    }
    while fourth(q + 1) <= bound {
        q += 1;
    }
    q as u32
}
