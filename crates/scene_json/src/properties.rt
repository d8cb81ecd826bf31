//! The lines of local properties.
ghost use Rattle.scene_json.specs.Scenes.{local_lines, prop_lines, put_prop};
ghost use Rattle.scene_json.specs.Words.{prop_named};
ghost use Rattle.scene_json.specs.Writing.{each_member, going};
ghost use Rattle.serde_json.specs.View.{members_view, view};
ghost use Rattle.std.specs.Prelude.{◌≡◌, IfOk};

use crate::lines::line_of_four;
use crate::selectors::is_selector;
use crate::values::value_word;
use crate::writer::Writer;
use gui_base::props::PROPS;
use gui_base::{NoMemory, named};
use itoa::Buffer;
use serde_json::{Map, Value};

impl Writer {
    /// The lines of local properties.
    pub(crate) fn local_lines(&mut self, id: &[u8], value: &Value) -> Result<bool, NoMemory>
        ensures { IfOk result (λ goes. going goes self.new ≡ local_lines id.now (view value.now) self.old) }
    {
        let Some(local) = value.as_object() else {
            return Ok(false);
        };
        self.each_selector(id, local)
    }

    fn each_selector(&mut self, id: &[u8], local: &Map<String, Value>) -> Result<bool, NoMemory>
        ensures { IfOk result (λ goes. going goes self.new
            ≡ each_member (prop_lines id.now) (members_view local.now.entries) self.old) }
    {
        for (selector, props) in local {
            if !self.prop_lines(id, selector.as_bytes(), props)? {
                return Ok(false);
            }
        }
        Ok(true)
    }

    /// The lines of the properties for one selector.
    fn prop_lines(&mut self, id: &[u8], selector: &[u8], value: &Value) -> Result<bool, NoMemory>
        ensures { IfOk result
            (λ goes. going goes self.new ≡ prop_lines id.now selector.now (view value.now) self.old) }
    {
        if !is_selector(selector) {
            return Ok(false);
        }
        let Some(props) = value.as_object() else {
            return Ok(false);
        };
        self.each_prop(id, selector, props)
    }

    fn each_prop(
        &mut self,
        id: &[u8],
        selector: &[u8],
        props: &Map<String, Value>,
    ) -> Result<bool, NoMemory>
        ensures { IfOk result (λ goes. going goes self.new
            ≡ each_member (λ name value. put_prop id.now selector.now name (prop_named name) value)
            (members_view props.now.entries) self.old) }
    {
        for (name, value) in props {
            if !self.prop_line(id, selector, name.as_bytes(), value)? {
                return Ok(false);
            }
        }
        Ok(true)
    }

    /// The line of one property.
    #[tactic(auto, unfolding(crate::specs::Words::prop_named))]
    fn prop_line(
        &mut self,
        id: &[u8],
        selector: &[u8],
        name: &[u8],
        value: &Value,
    ) -> Result<bool, NoMemory>
        ensures { IfOk result (λ goes. going goes self.new
            ≡ put_prop id.now selector.now name.now (prop_named name.now) (view value.now) self.old) }
    {
        let Some(prop) = named(&PROPS, name) else {
            return Ok(false);
        };
        let mut buffer = Buffer::new();
        let Some(word) = value_word(prop, value, &mut buffer) else {
            return Ok(false);
        };
        let line = line_of_four(self.alloc, b"local", id, selector, name, word)?;
        self.put(&line)
    }
}
