//! Laws of the definitions. Each function does nothing: its contract is the law.
ghost use Rattle.std.specs.Prelude.{◌≡◌, ℕ, List, nat_eq};
ghost use Rattle.std.specs.Str.{bytes_eq};
ghost use Rattle.call_tree.specs.PathSums.{total_of, own_of};
ghost use Rattle.call_tree.specs.CallTree.{own_weight, total_weight, tree_of};
ghost use Rattle.call_tree.specs.FrameTable.{HasDistinctNames};
ghost use Rattle.call_tree.specs.Listing.{named, named_samples, AreIn, AreAllIn};

/// After any list of adds a tree's totals and own weights are the sums over that list.
pub fn weights_are_sums()
    ensures total { (adds : List (List ℕ × ℕ)) (path : List ℕ)
        → total_weight (tree_of adds) path ≡ total_of nat_eq adds path }
    ensures own { (adds : List (List ℕ × ℕ)) (path : List ℕ)
        → own_weight (tree_of adds) path ≡ own_of nat_eq adds path }
{}

/// Adds of the same own sums, in whatever order, make the same tree.
pub fn trees_are_their_sums()
    ensures { (xs ys : List (List ℕ × ℕ))
        → ((path : List ℕ) → own_of nat_eq xs path ≡ own_of nat_eq ys path)
        → tree_of xs ≡ tree_of ys }
{}

/// Where a table's names are distinct and it has all the numbers, sums by names are sums by numbers.
pub fn sums_by_name()
    ensures total { (names : List (List ℕ)) (samples : List (List ℕ × ℕ)) (path : List ℕ)
        → HasDistinctNames names → AreAllIn names samples → AreIn names path
        → total_of bytes_eq (named_samples names samples) (named names path)
        ≡ total_of nat_eq samples path }
    ensures own { (names : List (List ℕ)) (samples : List (List ℕ × ℕ)) (path : List ℕ)
        → HasDistinctNames names → AreAllIn names samples → AreIn names path
        → own_of bytes_eq (named_samples names samples) (named names path)
        ≡ own_of nat_eq samples path }
{}
