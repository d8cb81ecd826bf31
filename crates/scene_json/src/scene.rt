//! The text of a scene from its bytes.
ghost use Rattle.scene_json.specs.Scenes.{scene, scene_text, text_or};
ghost use Rattle.scene_json.specs.Texts.{text_of};
ghost use Rattle.serde_json.specs.View.{view};
ghost use Rattle.std.specs.Prelude.{◌≡◌, IfOk};

use crate::writer::Writer;
use gui_base::NoMemory;
use serde_json::Value;
use std::alloc::Global;

/// The text of the scene that these bytes are, if they are one.
#[tactic(auto, using(crate::proofs::Reading::reading))]
pub(crate) fn scene_text(alloc: Global, bytes: &[u8]) -> Result<Option<Vec<u8>>, NoMemory>
    ensures { IfOk result (λ text. text_of text ≡ scene_text bytes.now) }
{
    match Value::from_slice(alloc, bytes) {
        Ok(value) => text_of(alloc, &value),
        Err(error) if error.is_memory() => Err(NoMemory),
        Err(_) => Ok(None),
    }
}

/// The text of the scene that this value is, if it is one.
#[tactic(auto, unfolding(crate::specs::Scenes::scene))]
fn text_of(alloc: Global, value: &Value) -> Result<Option<Vec<u8>>, NoMemory>
    ensures { IfOk result (λ text. text_of text ≡ text_or (scene (view value.now))) }
{
    let mut writer = Writer::new(alloc);
    if writer.scene_lines(value)? {
        Ok(Some(writer.into_text()))
    } else {
        Ok(None)
    }
}
