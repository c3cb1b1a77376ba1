//! The nets of a board, cut into subcircuits.
ghost use Rattle.std.specs.Prelude.{◌≡◌, ℕ, ◌<◌, ◌≤◌, ◌++◌, [], ◌∷◌, List, length, map, Some, slice_get, slice_index};
ghost use Rattle.std.specs.Prelude.{slice_index_or, slice_set, IfOk, OnOk, vec_len};
ghost use Rattle.board_model.specs.Fits.{IsWiring};
ghost use Rattle.net_resolve.specs.Subcircuits.{IsCut, IsSubcircuit, AreSubcircuits, AreOnce, own_pair, picked, labels_of, whole_of};
ghost use Rattle.net_resolve.specs.Sorted.{ArePicked, IsSorted};
ghost use Rattle.board_model.specs.Pairs.{ArePairs};

use crate::room::zeros;
use crate::subcircuit::Subcircuit;
use crate::whole::Whole;
use net_union_find::{join_pairs, label_pairs};
use sim_base::{List, OutOfMemory, Wiring};
use std::alloc::{AllocError, Global};

/// The number of each net's subcircuit, which is its first net, and the numbers of the nets, pins,
/// contacts and resistors that each subcircuit has.
#[derive(Drop)]
pub(crate) struct Sorted {
    pub(crate) labels: List<u16>,
    nets: List<List<usize>>,
    pins: List<List<usize>>,
    contacts: List<List<usize>>,
    resistors: List<List<usize>>,
}

/// So many empty lists.
fn empty_lists(alloc: Global, count: usize) -> Result<List<List<usize>>, OutOfMemory>
    ensures long { IfOk result (λ ls. length ls ≡ count) }
    ensures empty { IfOk result (λ ls. (q : ℕ) (l : List ℕ) → slice_get ls q ≡ Some l → l ≡ []) }
{
    let mut lists = List::new(alloc);
    while lists.len() < count {
        lists.push(List::new(alloc))?;
    }
    Ok(lists)
}

fn add_place(lists: &mut [List<usize>], key: u16, place: usize) -> Result<(), OutOfMemory>
    requires { key < length lists.old }
    ensures { OnOk result (lists.new ≡ slice_set lists.old key (slice_index_or lists.old key [] ++ place ∷ [])) }
{
    lists[key as usize].push(place)
}

/// Adds to the list of each key the places at which it stands.
fn add_places(keys: &[u16], lists: &mut [List<usize>]) -> Result<(), OutOfMemory>
    requires keys { (k key : ℕ) → slice_get keys.now k ≡ Some key → key < length lists.old }
    requires empty { (q : ℕ) (l : List ℕ) → slice_get lists.old q ≡ Some l → l ≡ [] }
    ensures { OnOk result ((q : ℕ) (l : List ℕ) → slice_get lists.new q ≡ Some l → l ≡ picked q 0 keys.now) }
{
    for k in 0..keys.len() {
        add_place(lists, keys[k], k)?;
    }
    Ok(())
}

/// The places of each key below `count`.
fn sort_places(alloc: Global, keys: &[u16], count: usize) -> Result<List<List<usize>>, OutOfMemory>
    requires { (k key : ℕ) → slice_get keys.now k ≡ Some key → key < count }
    ensures { IfOk result (λ ls. ArePicked count keys.now ls) }
{
    let mut lists = empty_lists(alloc, count)?;
    add_places(keys, lists.as_mut_slice())?;
    Ok(lists)
}

/// The label of each pin's net.
fn pin_labels(alloc: Global, labels: &[u16], net_of: &[u16]) -> Result<Vec<u16>, AllocError>
    requires { (k n : ℕ) → slice_get net_of.now k ≡ Some n → n < length labels.now }
    ensures { IfOk result (λ v. v.items ≡ map (slice_index labels.now) net_of.now) }
{
    let mut keys = Vec::new(alloc);
    for k in 0..net_of.len() {
        keys.push(labels[net_of[k] as usize])?;
    }
    Ok(keys)
}

/// The label of each pair's first net.
fn pair_labels(alloc: Global, labels: &[u16], pairs: &[(u16, u16)]) -> Result<Vec<u16>, AllocError>
    requires { ArePairs (length labels.now) pairs.now }
    ensures { IfOk result (λ v. v.items ≡ labels_of labels.now pairs.now) }
{
    let mut keys = Vec::new(alloc);
    for k in 0..pairs.len() {
        let (first, _) = pairs[k];
        keys.push(labels[first as usize])?;
    }
    Ok(keys)
}

/// Sorts what a wiring has by labels of its nets.
fn sort_by(alloc: Global, wiring: &Wiring, labels: List<u16>) -> Result<Sorted, OutOfMemory>
    requires { IsCut (whole_of wiring.now) labels }
    ensures { IfOk result (λ s. IsSorted (whole_of wiring.now) s) }
{
    let count = wiring.nets as usize;
    let keys = labels.as_slice();
    let nets = sort_places(alloc, keys, count)?;
    let pin_keys = pin_labels(alloc, keys, wiring.net_of.as_slice())?;
    let pins = sort_places(alloc, &pin_keys, count)?;
    let contact_keys = pair_labels(alloc, keys, wiring.contacts.as_slice())?;
    let contacts = sort_places(alloc, &contact_keys, count)?;
    let resistor_keys = pair_labels(alloc, keys, wiring.resistors.as_slice())?;
    let resistors = sort_places(alloc, &resistor_keys, count)?;
    Ok(Sorted {
        labels,
        nets,
        pins,
        contacts,
        resistors,
    })
}

/// Cuts the nets of a wiring where no contact and no resistor joins them.
pub(crate) fn sort(alloc: Global, wiring: &Wiring) -> Result<Sorted, OutOfMemory>
    requires { IsWiring wiring.now }
    ensures { IfOk result (λ s. IsSorted (whole_of wiring.now) s) }
{
    let mut labels = zeros(alloc, wiring.nets as usize)?;
    let places = labels.as_mut_slice();
    label_pairs(wiring.contacts.as_slice(), places);
    join_pairs(wiring.resistors.as_slice(), places);
    sort_by(alloc, wiring, List::from_vec(labels))
}

/// Numbers some nets from 0.
fn number(nets: &[usize], numbers: &mut [u16])
    requires few { length nets.now ≤ 65536 }
    requires within { (i n : ℕ) → slice_get nets.now i ≡ Some n → n < length numbers.old }
    requires once { AreOnce nets.now }
    ensures { (i n : ℕ) → slice_get nets.now i ≡ Some n → slice_get numbers.new n ≡ Some i }
{
    for i in 0..nets.len() {
        numbers[nets[i]] = i as u16;
    }
}

/// The new numbers of the nets of some pins.
fn own_nets(
    alloc: Global,
    net_of: &[u16],
    pins: &[usize],
    numbers: &[u16],
) -> Result<Vec<u16>, AllocError>
    requires pins { (j k : ℕ) → slice_get pins.now j ≡ Some k → k < length net_of.now }
    requires nets { (k n : ℕ) → slice_get net_of.now k ≡ Some n → n < length numbers.now }
    ensures { IfOk result (λ v. v.items ≡ map (λ k. slice_index numbers.now (slice_index net_of.now k)) pins.now) }
{
    let mut own = Vec::new(alloc);
    for j in 0..pins.len() {
        own.push(numbers[net_of[pins[j]] as usize])?;
    }
    Ok(own)
}

/// Some pairs of nets, by the new numbers.
fn own_pairs(
    alloc: Global,
    pairs: &[(u16, u16)],
    places: &[usize],
    numbers: &[u16],
) -> Result<Vec<(u16, u16)>, AllocError>
    requires places { (j k : ℕ) → slice_get places.now j ≡ Some k → k < length pairs.now }
    requires nets { ArePairs (length numbers.now) pairs.now }
    ensures { IfOk result (λ v. v.items ≡ map (own_pair numbers.now pairs.now) places.now) }
{
    let mut own = Vec::new(alloc);
    for j in 0..places.len() {
        let (a, b) = pairs[places[j]];
        own.push((numbers[a as usize], numbers[b as usize]))?;
    }
    Ok(own)
}

fn list_at(lists: &List<List<usize>>, q: usize) -> &[usize]
    requires { q < length lists.now }
    ensures { slice_get lists.now q ≡ Some result.now }
{
    lists.as_slice()[q].as_slice()
}

/// The subcircuit with a number.
fn cut_out(
    alloc: Global,
    wiring: &Wiring,
    sorted: &Sorted,
    q: usize,
    numbers: &mut [u16],
) -> Result<Subcircuit, OutOfMemory>
    requires wiring { IsWiring wiring.now }
    requires sorted { IsSorted (whole_of wiring.now) sorted.now }
    requires few { wiring.now.nets ≤ 65536 }
    requires q { q < wiring.now.nets }
    requires numbers { length numbers.old ≡ wiring.now.nets }
    ensures { IfOk result (λ s. IsSubcircuit (whole_of wiring.now) sorted.now.labels q s) }
{
    let nets = list_at(&sorted.nets, q);
    let pins = list_at(&sorted.pins, q);
    let contacts = list_at(&sorted.contacts, q);
    let resistors = list_at(&sorted.resistors, q);
    number(nets, numbers);
    let net_of = own_nets(alloc, wiring.net_of.as_slice(), pins, numbers)?;
    let own_contacts = own_pairs(alloc, wiring.contacts.as_slice(), contacts, numbers)?;
    let own_resistors = own_pairs(alloc, wiring.resistors.as_slice(), resistors, numbers)?;
    let whole = Whole::new(alloc, nets.len(), net_of, own_contacts, own_resistors)?;
    Subcircuit::new(alloc, nets, pins, contacts, whole)
}

/// All subcircuits of a wiring, in the order of their numbers; a number that is no label is that of one without nets.
pub(crate) fn cut_all(
    alloc: Global,
    wiring: &Wiring,
    sorted: &Sorted,
) -> Result<Vec<Subcircuit>, OutOfMemory>
    requires wiring { IsWiring wiring.now }
    requires sorted { IsSorted (whole_of wiring.now) sorted.now }
    ensures long { IfOk result (λ v. length v.items ≡ wiring.now.nets) }
    ensures subcircuits { IfOk result (λ v. AreSubcircuits (whole_of wiring.now) sorted.now.labels v.items) }
{
    let mut numbers = zeros(alloc, wiring.nets as usize)?;
    let mut subcircuits = Vec::new(alloc);
    for q in 0..wiring.nets as usize {
        subcircuits.push(cut_out(alloc, wiring, sorted, q, &mut numbers)?)?;
    }
    Ok(subcircuits)
}
