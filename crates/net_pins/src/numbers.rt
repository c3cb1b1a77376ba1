//! The numbers of nets.
ghost use Rattle.std.specs.Prelude.{◌≡◌, ◌<◌, ◌≤◌, length, IfOk, List, ℕ};
ghost use Rattle.std.specs.List.{All};
ghost use Rattle.board_model.specs.Walks.{below};
ghost use Rattle.net_union_find.specs.Forest.{AreLabels};
ghost use Rattle.net_pins.specs.Labels.{IsBelow, owns, numbered};
ghost use Rattle.net_pins.specs.Numbering.{net_count, net_numbers};

use net_union_find::label_pairs;
use sim_base::{List, OutOfMemory};
use std::alloc::Global;

/// How many nets there are, and the net of each pin.
#[derive(Drop)]
pub struct NetNumbers {
    pub nets: u16,
    pub net_of: List<u16>,
}

fn own_labels(alloc: Global, count: u16) -> Result<List<u16>, OutOfMemory>
    ensures { IfOk result (λ labels. labels ≡ below count) }
{
    let mut labels = List::new(alloc);
    for pin in 0..count {
        labels.push(pin)?;
    }
    Ok(labels)
}

fn number(labels: &mut [u16]) -> u16
    requires few { length labels.old ≤ 65535 }
    requires least { AreLabels labels.old }
    ensures numbers { labels.new ≡ numbered labels.old }
    ensures count { result ≡ owns labels.old (length labels.old) }
{
    let mut nets: u16 = 0;
    for pin in 0..labels.len() {
        let label = labels[pin] as usize;
        if label == pin {
            labels[pin] = nets;
            nets += 1;
        } else {
            labels[pin] = labels[label];
        }
    }
    nets
}

fn label_and_number(labels: &mut [u16], pairs: &[(u16, u16)]) -> u16
    requires few { length labels.old ≤ 65535 }
    requires below { All (IsBelow (length labels.old)) pairs.now }
    ensures numbers { labels.new ≡ net_numbers pairs.now (length labels.old) }
    ensures count { result ≡ net_count pairs.now (length labels.old) }
{
    label_pairs(pairs, labels);
    number(labels)
}

/// The nets of `count` pins of which some pairs are joined.
pub fn number_nets(
    alloc: Global,
    pairs: &[(u16, u16)],
    count: u16,
) -> Result<NetNumbers, OutOfMemory>
    requires { All (IsBelow count) pairs.now }
    ensures numbers { IfOk result (λ n. n.net_of ≡ net_numbers pairs.now count) }
    ensures count { IfOk result (λ n. n.nets ≡ net_count pairs.now count) }
{
    let mut labels = own_labels(alloc, count)?;
    let nets = label_and_number(labels.as_mut_slice(), pairs);
    Ok(NetNumbers {
        nets,
        net_of: labels,
    })
}
