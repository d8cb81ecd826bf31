//! The steps of a row: one for each of its pixels that is mixed.
ghost use Rattle.std.specs.Prelude.{◌≡◌, ◌+◌, ◌*◌, ◌≤◌, length};
ghost use Rattle.gui_color.specs.Masks.{mask_bit};
ghost use Rattle.gui_draw.specs.Counts.{one_if, sum_below};

use gui_base::Steps;
use gui_color::mask_bit;
use std::sync::ledger::Ledger;

/// So many steps.
pub(crate) fn tick_times<L: Ledger>(count: u32, steps: &mut Steps<L>)
    ensures { steps.new ≡ steps.old + count }
{
    for _ in 0..count {
        steps.tick();
    }
}

/// A step for each bit that is set among `count` bits from the first on.
pub(crate) fn tick_bits<L: Ledger>(bits: &[u8], first: u32, count: u32, steps: &mut Steps<L>)
    requires { first + count ≤ 8 * length bits.now }
    ensures { steps.new ≡ steps.old + sum_below count (λ i. one_if (mask_bit bits.now (first + i))) }
{
    for i in 0..count {
        tick_if(mask_bit(bits, first as usize + i as usize), steps);
    }
}

/// A step if a bit is set.
pub(crate) fn tick_if<L: Ledger>(set: bool, steps: &mut Steps<L>)
    ensures { steps.new ≡ steps.old + one_if set }
{
    if set {
        steps.tick();
    }
}
