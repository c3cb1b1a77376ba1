//! Labels of places.
ghost use Rattle.std.specs.Prelude.{◌≡◌, ◌≤◌, length};
ghost use Rattle.board_model.specs.Nets.{joined_by};
ghost use Rattle.board_model.specs.Pairs.{ArePairs};
ghost use Rattle.board_model.specs.Resolve.{contact_joins};
ghost use Rattle.net_union_find.specs.Forest.{IsForest, AreLabels, AreClasses, Joins};

use crate::forest::{flatten, join, put_alone};

/// Joins the trees of the pairs that are chosen.
fn join_trees(pairs: &[(u16, u16)], chosen: &[bool], parents: &mut [u16])
    requires forest { IsForest parents.old }
    requires pairs { ArePairs (length parents.old) pairs.now }
    requires chosen { length chosen.now ≡ length pairs.now }
    ensures forest { IsForest parents.new }
    ensures joins { Joins (contact_joins pairs.now chosen.now) parents.old parents.new }
{
    for i in 0..pairs.len() {
        if chosen[i] {
            let (a, b) = pairs[i];
            join(parents, a, b);
        }
    }
}

/// Gives one label to the places of one label, and to those that a chosen pair names: the least of them.
pub fn join_chosen(pairs: &[(u16, u16)], chosen: &[bool], labels: &mut [u16])
    requires labels { AreLabels labels.old }
    requires pairs { ArePairs (length labels.old) pairs.now }
    requires chosen { length chosen.now ≡ length pairs.now }
    ensures labels { AreLabels labels.new }
    ensures joins { Joins (contact_joins pairs.now chosen.now) labels.old labels.new }
{
    join_trees(pairs, chosen, labels);
    flatten(labels);
}

/// Joins the trees of all pairs.
fn join_each(pairs: &[(u16, u16)], parents: &mut [u16])
    requires forest { IsForest parents.old }
    requires pairs { ArePairs (length parents.old) pairs.now }
    ensures forest { IsForest parents.new }
    ensures joins { Joins (joined_by pairs.now) parents.old parents.new }
{
    for i in 0..pairs.len() {
        let (a, b) = pairs[i];
        join(parents, a, b);
    }
}

/// Gives one label to the places of one label, and to those that a pair names: the least of them.
pub fn join_pairs(pairs: &[(u16, u16)], labels: &mut [u16])
    requires labels { AreLabels labels.old }
    requires pairs { ArePairs (length labels.old) pairs.now }
    ensures labels { AreLabels labels.new }
    ensures joins { Joins (joined_by pairs.now) labels.old labels.new }
{
    join_each(pairs, labels);
    flatten(labels);
}

/// Labels places by the pairs that join them.
pub fn label_pairs(pairs: &[(u16, u16)], labels: &mut [u16])
    requires few { length labels.old ≤ 65536 }
    requires pairs { ArePairs (length labels.old) pairs.now }
    ensures { AreClasses (joined_by pairs.now) labels.new }
{
    put_alone(labels);
    join_pairs(pairs, labels);
}

/// Labels places by the chosen pairs, which join them.
pub fn label_chosen(pairs: &[(u16, u16)], chosen: &[bool], labels: &mut [u16])
    requires few { length labels.old ≤ 65536 }
    requires pairs { ArePairs (length labels.old) pairs.now }
    requires chosen { length chosen.now ≡ length pairs.now }
    ensures { AreClasses (contact_joins pairs.now chosen.now) labels.new }
{
    put_alone(labels);
    join_chosen(pairs, chosen, labels);
}
