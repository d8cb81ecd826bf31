//! Tells how many slots of the pools are in use.
ghost use Rattle.std.specs.Prelude.{◌≡◌, ◌+◌, ◌*◌, ◌≤◌, ◌++◌, length, flat_map};
ghost use Rattle.arrayvec.specs.ArrayVec.{array_vec_len};
ghost use Rattle.gui_core.specs.Machines.{machine_of};
ghost use Rattle.scene_ask.specs.Asking.{pool_says, pools_say};

use crate::adding::{AnswerLine, push_span};
use gui_base::{POOLS, Pool};
use gui_core::Gui;
use gui_edge::text::push_bytes;

/// Adds what is in use of a pool, or of each of them.
pub(crate) fn push_used(text: &mut AnswerLine, gui: &Gui, pool: Option<Pool>)
    requires { array_vec_len text.old + 663 ≤ 2100 }
    ensures items { text.new.items ≡ text.old.items ++ pools_say (machine_of gui.now) pool }
    ensures len { array_vec_len text.new ≤ array_vec_len text.old + 663 }
{
    match pool {
        Some(pool) => push_pool(text, gui, pool),
        None => push_pools(text, gui, &POOLS),
    }
}

/// Adds what is in use of these pools.
fn push_pools(text: &mut AnswerLine, gui: &Gui, pools: &[Pool])
    requires { array_vec_len text.old + 51 * length pools.now ≤ 2100 }
    ensures items { text.new.items ≡ text.old.items ++ flat_map (pool_says (machine_of gui.now)) pools.now }
    ensures len { array_vec_len text.new ≤ array_vec_len text.old + 51 * length pools.now }
{
    for pool in pools {
        push_pool(text, gui, *pool);
    }
}

/// Adds the name of a pool, how many of its slots are in use, and how many it has.
fn push_pool(text: &mut AnswerLine, gui: &Gui, pool: Pool)
    requires { array_vec_len text.old + 51 ≤ 2100 }
    ensures items { text.new.items ≡ text.old.items ++ pool_says (machine_of gui.now) pool }
    ensures len { array_vec_len text.new ≤ array_vec_len text.old + 51 }
{
    push_bytes(text, b" ");
    push_bytes(text, pool.name().as_bytes());
    push_span(text, gui.used(pool), gui.store().limits().slots(pool));
}
