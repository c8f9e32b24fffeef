// A cone as it lies in memory: 34 words of 64 bits. A slice of such arrays is what C passes as `const Cone *` and a number of cones, and
// loops over it are proved like any others.
ghost use Rattle.std.specs.Prelude.{◌≡◌, ◌≤◌};
ghost use Rattle.cone.specs.words.Words.{low_half, high_half, places_of, cone_of_words};

use crate::Cone;
use double::of_bits;

// Two numbers of 32 bits share a word, the first in its lower half.
pub fn low_half(x: u64) -> u32
    ensures { result ≡ low_half x }
{
    (x % 4294967296) as u32
}

pub fn high_half(x: u64) -> u32
    ensures { result ≡ high_half x }
{
    (x / 4294967296) as u32
}

// The first n exponent places. Those behind are not read, and +0.
pub fn places(w: [u64; 34], n: usize) -> [f64; 32]
    requires { n ≤ 32 }
    ensures { result ≡ places_of w n }
{
    // a loop, as the words are numbers of 64 bits, and `places` of this crate fills from doubles alone
    let mut exps = [0.0; 32];
    for (i, word) in w[2..n + 2].iter().enumerate() {
        exps[i] = of_bits(*word);
    }
    exps
}

// The cone that lies in these words.
pub fn cone_of(w: [u64; 34]) -> Cone
    ensures { result ≡ cone_of_words w }
{
    let exps = places(w, 32);
    let kind = low_half(w[0]);
    let dim1 = high_half(w[0]);
    let dim2 = low_half(w[1]);
    let rule = high_half(w[1]);
    Cone {
        kind,
        dim1,
        dim2,
        rule,
        exps,
    }
}
