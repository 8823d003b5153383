// Parts of a slice, as far as it goes.
ghost use Rattle.std.specs.Prelude.{◌≡◌, take, drop, slice_index_or};

// The first n cells; all where there are no more.
pub fn first<T>(s: &[T], n: usize) -> &[T]
    ensures { result.now ≡ take n s.now }
{
    &s[..n.min(s.len())]
}

// The cells from n on; none where there are no more.
pub fn from<T>(s: &[T], n: usize) -> &[T]
    ensures { result.now ≡ drop n s.now }
{
    &s[n.min(s.len())..]
}

// The cell k, or another value past the end.
pub fn at_or<T: Copy>(s: &[T], k: usize, other: T) -> T
    ensures { result ≡ slice_index_or s.now k other }
{
    s.get(k).copied().unwrap_or(other)
}

// The cell k, or 0 past the end.
pub fn at(s: &[u64], k: usize) -> u64
    ensures { result ≡ slice_index_or s.now k 0 }
{
    at_or(s, k, 0)
}
