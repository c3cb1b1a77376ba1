//! What two sets of chips drive otherwise.
ghost use Rattle.std.specs.Prelude.{◌≡◌, length, map, Some};
ghost use Rattle.std.specs.Option.{option_map};
ghost use Rattle.law_board.specs.FirstDiff.{pin_diff, part_diff};
ghost use Rattle.law_board.specs.Twin.{with_chips};
ghost use Rattle.board_twin.specs.Beside.{AreComparable};
ghost use Rattle.board_twin.specs.Twins.{cycle_of, differs};

use crate::twin::TwinEnd;
use board_run::is_same_drive;
use part_law::Part;
use sim_base::{Drive, Wiring};

/// The first pin on which two parts with as many pins drive otherwise.
fn pin_difference<P: Part>(a: &P, b: &P) -> Option<(u8, Drive, Drive)>
    requires pins { length (P.machine.drives (P.state b.now)) ≡ length (P.machine.drives (P.state a.now)) }
    ensures { result ≡ pin_diff 0 (P.machine.drives (P.state a.now)) (P.machine.drives (P.state b.now)) }
{
    for pin in 0..a.pins() {
        let x = a.drive(pin);
        let y = b.drive(pin);
        if !is_same_drive(x, y) {
            return Some((pin, x, y));
        }
    }
    None
}

/// What the first chip, and its first pin, on which two sets of chips drive otherwise, are answered with.
pub(crate) fn difference<P: Part>(
    parts: &[P],
    chips: &[P],
    wiring: &Wiring,
    t: u64,
) -> Option<TwinEnd>
    requires { AreComparable P.Part wiring.now parts.now chips.now }
    ensures cycle { (e : TwinEnd) → result ≡ Some e → cycle_of e 0 ≡ t }
    ensures found { result ≡ option_map differs (part_diff P.machine wiring.now t 0 (map P.state parts.now)
        (with_chips wiring.now (map P.state parts.now) (map P.state chips.now))) }
{
    let mut j = 0;
    for k in 0..parts.len() {
        if wiring.chip.as_slice()[k] {
            if let Some((pin, a, b)) = pin_difference(&parts[k], &chips[j]) {
                return Some(TwinEnd::Differs {
                    cycle: t,
                    part: k as u8,
                    pin,
                    a,
                    b,
                });
            }
            j += 1;
        }
    }
    None
}
