// Arrays written place by place: what a closure gives of each number of a slice, or of two slices together. A closure is described by a
// function h of numbers that gives what it gives.
ghost use Rattle.std.specs.Prelude.{◌≡◌, ◌+◌, ◌≤◌, map, min, length, Float};
ghost use Rattle.std.proofs.lemmas.List.Edits.{sets};
ghost use mathlib.Core.List.{zip_with};
ghost use Rattle.cone.specs.Points.{padded, zip_three};

// g, with f of each number of xs from place n on.
pub fn put<const N: usize, F: Fn(f64) -> f64>(g: [f64; N], n: usize, xs: &[f64], f: F) -> [f64; N]
    requires fits { n + length xs.now ≤ N }
    requires called { F.IsAlwaysCallable f }
    ensures { (h : Float → Float) → ((x y : Float) → F.post f x y → y ≡ h x) → result ≡ sets g.entry n (map h xs.now) }
{
    let mut out = g;
    for (i, x) in xs.iter().enumerate() {
        out[n + i] = f(*x);
    }
    out
}

// g, with f of each two numbers of xs and ys from place n on, up to the end of the shorter.
pub fn put_zipped<const N: usize, F: Fn(f64, f64) -> f64>(
    g: [f64; N],
    n: usize,
    xs: &[f64],
    ys: &[f64],
    f: F,
) -> [f64; N]
    requires fits { n + min (length xs.now) (length ys.now) ≤ N }
    requires called { F.IsAlwaysCallable f }
    ensures { (h : Float → Float → Float) → ((x y z : Float) → F.post f x y z → z ≡ h x y)
        → result ≡ sets g.entry n (zip_with h xs.now ys.now) }
{
    let mut out = g;
    for (i, (x, y)) in xs.iter().zip(ys).enumerate() {
        out[n + i] = f(*x, *y);
    }
    out
}

// f of each number of xs, and +0 behind.
pub fn filled<const N: usize, F: Fn(f64) -> f64>(xs: &[f64], f: F) -> [f64; N]
    requires fits { length xs.now ≤ N }
    requires called { F.IsAlwaysCallable f }
    ensures { (h : Float → Float) → ((x y : Float) → F.post f x y → y ≡ h x) → result ≡ padded N (map h xs.now) }
{
    put([0.0; N], 0, xs, f)
}

// f of each two numbers of xs and ys, and +0 behind.
pub fn filled_zipped<const N: usize, F: Fn(f64, f64) -> f64>(
    xs: &[f64],
    ys: &[f64],
    f: F,
) -> [f64; N]
    requires fits { min (length xs.now) (length ys.now) ≤ N }
    requires called { F.IsAlwaysCallable f }
    ensures { (h : Float → Float → Float) → ((x y z : Float) → F.post f x y z → z ≡ h x y)
        → result ≡ padded N (zip_with h xs.now ys.now) }
{
    put_zipped([0.0; N], 0, xs, ys, f)
}

// f of each three numbers of xs, ys and zs, and +0 behind.
pub fn filled_by_three<const N: usize, F: Fn(f64, f64, f64) -> f64>(
    xs: &[f64],
    ys: &[f64],
    zs: &[f64],
    f: F,
) -> [f64; N]
    requires fits { min (min (length xs.now) (length ys.now)) (length zs.now) ≤ N }
    requires called { F.IsAlwaysCallable f }
    ensures { (h : Float → Float → Float → Float) → ((x y z w : Float) → F.post f x y z w → w ≡ h x y z)
        → result ≡ padded N (zip_three h xs.now ys.now zs.now) }
{
    let mut out = [0.0; N];
    for (i, ((x, y), z)) in xs.iter().zip(ys).zip(zs).enumerate() {
        out[i] = f(*x, *y, *z);
    }
    out
}
