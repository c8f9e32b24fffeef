// Which multiple of S(1/3) a number lies over, and by how much. All is raised by 1024·S(1/3), so that nothing is below 0.
ghost use Rattle.std.specs.Prelude.{◌≡◌, ◌+◌, ◌*◌, ◌/◌, ◌^◌, ◌<◌, ◌≤◌};
ghost use Rattle.double.specs.Fields.{mag};
ghost use Rattle.exponential.specs.Steps.{border, place_of, rest, raised, point_of, InRange, AtPlace, NormalFields};

// S(1/3) in units of 2^-53, rounded down, and the next 40 binary digits of it.
const THIRD: u64 = 6243314768165359;

const THIRD_REST: u64 = 229667272307;

// 1024·S(1/3) in units of 2^-53, rounded up: where 0 is raised to.
const HOME: u64 = 6393154322601327830;

// What HOME is over 1024·S(1/3), in units of 2^-93, rounded up.
const HOME_REST: u64 = 116201501695;

// Whole units of 2^-53, and parts of 2048 of a unit: 2^64·709 does not fit 64 bits.
#[derive(Clone, Copy)]
pub struct Point {
    pub whole: u64,
    pub part: u64,
}

// m / 2^n for any n, where the machine's shift takes only an n below 64.
fn shifted(m: u64, n: u64) -> u64
    ensures { result ≡ m / 2 ^ n }
{
    if n < 64 { m >> n } else { 0 }
}

// Where the number with these fields is raised to, rounded down: a negative one away from 0. From ½ on it is a whole number of units.
pub(crate) fn locate(negative: bool, f: u64, t: u64) -> Point
    requires { NormalFields negative f t }
    ensures { result ≡ point_of (raised negative (mag f t) (2 ^ 1074)) }
{
    let m = 0x10_0000_0000_0000 + t;
    if f < 1022 {
        if negative {
            let s = shifted(m * 2048 - 1, 1022 - f);
            return Point {
                whole: HOME - 1 - s / 2048,
                part: 2047 - s % 2048,
            };
        }
        let s = shifted(m * 2048, 1022 - f);
        return Point {
            whole: HOME + s / 2048,
            part: s % 2048,
        };
    }
    let n = m << (f - 1022);
    if negative {
        return Point {
            whole: HOME - n,
            part: 0,
        };
    }
    Point {
        whole: HOME + n,
        part: 0,
    }
}

// Where the place k begins.
fn border(k: u64) -> u64
    requires { k ≤ 2047 }
    ensures { result ≡ border k }
{
    k * THIRD + (k * THIRD_REST + HOME_REST) / 0x100_0000_0000 + 1
}

// The place of y. The quotient by a little more than S(1/3) is the place or one less.
pub(crate) fn place(y: u64) -> u64
    requires { InRange y }
    ensures { result ≡ place_of y }
{
    let k = y / (THIRD + 1);
    if border(k + 1) <= y {
        return k + 1;
    }
    k
}

// How far y and `part` parts of 2048 lie over the place k, in units of 2^-64.
pub(crate) fn rest(y: u64, part: u64, k: u64) -> u64
    requires { AtPlace y k × (part < 2048) }
    ensures { result ≡ rest (y * 2048 + part) k }
{
    let gap = 2047 - (k * THIRD_REST + HOME_REST) / 0x2000_0000 % 2048;
    (y - border(k)) * 2048 + gap + part
}
