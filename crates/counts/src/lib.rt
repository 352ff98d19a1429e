#![tactic(auto)]

// The misidentification counts of the latest samples. Document 02, request Three.
ghost use Rattle.std.specs.Prelude.{◌≡◌, ◌≤◌, length};
ghost use Rattle.grounds.specs.Earlier.{no_counts, latest_of, is_broken};
ghost use Rattle.grounds.specs.Window.{EIGHT, sum};

// One misidentification is allowed in two consecutive samples.
const TWO: usize = 2;

const IN_TWO: u16 = 1;

// Two are allowed in eight. So many counts are kept, the last sample's first.
pub const EIGHT: usize = 8;

const IN_EIGHT: u16 = 2;

// No sample since admission: 0 stands where there is none.
pub fn no_counts() -> [u8; EIGHT]
    ensures { result ≡ no_counts }
{
    [0; EIGHT]
}

// The latest counts after a sample with this one.
pub fn latest_of(count: u8, before: [u8; EIGHT]) -> [u8; EIGHT]
    ensures { result ≡ latest_of count before }
{
    let mut latest = before;
    latest.rotate_right(1);
    latest[0] = count;
    latest
}

// The misidentifications in samples.
fn sum_of(counts: &[u8]) -> u16
    requires { length counts.now ≤ EIGHT }
    ensures { result ≡ sum counts.now }
{
    let mut sum = 0;
    for count in counts {
        sum += u16::from(*count);
    }
    sum
}

// Whether the latest two samples, or the latest eight, have more misidentifications than are allowed.
pub fn too_many(latest: [u8; EIGHT]) -> bool
    ensures { result ≡ is_broken latest }
{
    (sum_of(&latest[..TWO]) > IN_TWO) | (sum_of(&latest[..EIGHT]) > IN_EIGHT)
}
