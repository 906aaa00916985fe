//! Two elements of a slice at once.
ghost use Rattle.std.specs.Prelude.{◌≡◌, ◌≢◌, ◌<◌, length, slice_index_or};
ghost use Rattle.std.specs.Borrow.{sem, LendsBoth, Array};
ghost use Rattle.bz_arena.specs.Pairs.{with_pair, UpdatesBoth};

// One on each side of a cut between them.
pub(crate) fn pair_of<T>(items: &mut [T], a: usize, b: usize) -> (&mut T, &mut T)
    requires first_held { a < length items.old }
    requires second_held { b < length items.old }
    requires different { a ≢ b }
    ensures* writes_back { sem 𝓛 (LendsBoth (Array T.row 0) T.row T.row items.entry result (with_pair items.old a b)) }
    ensures first { result.0.now ≡ slice_index_or items.old a result.0.now }
    ensures second { result.1.now ≡ slice_index_or items.old b result.1.now }
{
    if a < b {
        let (front, back) = items.split_at_mut(b);
        (&mut front[a], &mut back[0])
    } else {
        let (front, back) = items.split_at_mut(a);
        (&mut back[0], &mut front[b])
    }
}

// Hands two elements at once to `f`.
pub(crate) fn update_both<T, R, F: FnOnce(&mut T, &mut T) -> R>(
    items: &mut [T],
    a: usize,
    b: usize,
    f: F,
) -> R
    requires first_held { a < length items.old }
    requires second_held { b < length items.old }
    requires different { a ≢ b }
    requires callable { F.IsAlwaysCallable f }
    ensures { UpdatesBoth F.FnOnce f items.old a b result items.new }
{
    let (x, y) = pair_of(items, a, b);
    f(x, y)
}
