// The two parts of a slice, of elements of any type.
ghost use Rattle.std.specs.Prelude.{◌≡◌, take, drop};

// The first n elements, or all where there are fewer.
pub fn front<T>(xs: &[T], n: usize) -> &[T]
    ensures { result.now ≡ take n xs.now }
{
    &xs[..n.min(xs.len())]
}

// The elements from place n on, or none.
pub fn behind<T>(xs: &[T], n: usize) -> &[T]
    ensures { result.now ≡ drop n xs.now }
{
    &xs[n.min(xs.len())..]
}
