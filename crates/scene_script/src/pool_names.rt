//! What a word says as the name of a pool.
ghost use Rattle.std.specs.Prelude.{◌≡◌};
ghost use Rattle.scene_script.specs.Questions.{pool_named, pools_said};

use gui_base::{POOLS, Pool};
use run_defs::LineFault;

/// The pool of a name, or all of them if there is no word.
pub(crate) fn pools(word: &[u8]) -> Result<Option<Pool>, LineFault>
    ensures { result ≡ pools_said word.now }
{
    if word.is_empty() {
        return Ok(None);
    }
    match pool_named(word) {
        Some(pool) => Ok(Some(pool)),
        None => Err(LineFault::Syntax),
    }
}

/// The pool of a name.
fn pool_named(word: &[u8]) -> Option<Pool>
    ensures { result ≡ pool_named word.now }
{
    POOLS
        .iter()
        .copied()
        .find(|pool| word == pool.name().as_bytes())
}
