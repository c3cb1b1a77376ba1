//! Trees of places: each place has a parent that is no later, and those of one tree are joined.
ghost use Rattle.std.specs.Prelude.{◌≡◌, ℕ, ◌<◌, ◌≤◌, List, length, slice_index};
ghost use Rattle.board_model.specs.Walks.{below};
ghost use Rattle.net_union_find.specs.Forest.{IsForest, AreLabels, root_of, root_joined};

/// The first place of the tree. On the way to it each second place is hung one higher, so that
/// later ways are short.
fn root(parents: &mut [u16], place: u16) -> u16
    requires forest { IsForest parents.old }
    requires place { place < length parents.old }
    ensures forest { IsForest parents.new }
    ensures roots { (x : ℕ) → root_of parents.new x ≡ root_of parents.old x }
    ensures root { result ≡ root_of parents.old place }
    ensures first { result ≤ place }
{
    let mut at = place;
    while parents[at as usize] != at {
        let up = parents[parents[at as usize] as usize];
        parents[at as usize] = up;
        at = up;
    }
    at
}

/// Makes one tree of the trees of two places.
pub(crate) fn join(parents: &mut [u16], a: u16, b: u16)
    requires forest { IsForest parents.old }
    requires a { a < length parents.old }
    requires b { b < length parents.old }
    ensures forest { IsForest parents.new }
    ensures roots { (x : ℕ) → root_of parents.new x ≡ root_joined (root_of parents.old a) (root_of parents.old b) (root_of parents.old x) }
{
    let first = root(parents, a);
    let second = root(parents, b);
    if first < second {
        parents[second as usize] = first;
    } else {
        parents[first as usize] = second;
    }
}

/// Makes the root of each place its parent.
pub(crate) fn flatten(parents: &mut [u16])
    requires { IsForest parents.old }
    ensures roots { (x : ℕ) → x < length parents.old → slice_index parents.new x ≡ root_of parents.old x }
    ensures labels { AreLabels parents.new }
{
    for i in 0..parents.len() {
        parents[i] = parents[parents[i] as usize];
    }
}

/// Puts each place alone.
pub(crate) fn put_alone(parents: &mut [u16])
    requires { length parents.old ≤ 65536 }
    ensures { parents.new ≡ below (length parents.old) }
{
    for i in 0..parents.len() {
        parents[i] = i as u16;
    }
}
