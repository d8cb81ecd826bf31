//! The lines of what a node says of itself.
ghost use Rattle.scene_json.specs.Scenes.{size_line, pos_line, flag_lines, put_flag, text_line, own_lines};
ghost use Rattle.scene_json.specs.Scenes.{local_lines};
ghost use Rattle.scene_json.specs.Words.{string_word};
ghost use Rattle.scene_json.specs.Writing.{each, going, if_there};
ghost use Rattle.serde_json.specs.Find.{get};
ghost use Rattle.serde_json.specs.View.{items_view, view};
ghost use Rattle.std.specs.Prelude.{◌≡◌, IfOk, codes};

use crate::lines::{line_of_three, line_of_two};
use crate::members::two;
use crate::texts::{are_in_text, quoted};
use crate::values::{extent_word, number_word, string_word};
use crate::writer::Writer;
use gui_base::NoMemory;
use itoa::Buffer;
use serde_json::Value;

impl Writer {
    /// What a node says of itself, in this order whatever the order of its keys.
    pub(crate) fn own_lines(
        &mut self,
        id: &[u8],
        kind: &[u8],
        node: &Value,
    ) -> Result<bool, NoMemory>
        ensures { IfOk result
            (λ goes. going goes self.new ≡ own_lines id.now kind.now (view node.now) self.old) }
    {
        Ok(
            self.own_size(id, node)?
                && self.own_pos(id, node)?
                && self.own_flags(id, node)?
                && self.own_text(id, kind, node)?
                && self.own_local(id, node)?,
        )
    }

    fn own_size(&mut self, id: &[u8], node: &Value) -> Result<bool, NoMemory>
        ensures { IfOk result (λ goes. going goes self.new
            ≡ if_there (get (codes "size") (view node.now)) (size_line id.now) self.old) }
    {
        match node.get("size") {
            None => Ok(true),
            Some(size) => self.size_line(id, size),
        }
    }

    fn own_pos(&mut self, id: &[u8], node: &Value) -> Result<bool, NoMemory>
        ensures { IfOk result (λ goes. going goes self.new
            ≡ if_there (get (codes "pos") (view node.now)) (pos_line id.now) self.old) }
    {
        match node.get("pos") {
            None => Ok(true),
            Some(pos) => self.pos_line(id, pos),
        }
    }

    fn own_flags(&mut self, id: &[u8], node: &Value) -> Result<bool, NoMemory>
        ensures { IfOk result (λ goes. going goes self.new
            ≡ if_there (get (codes "flags") (view node.now)) (flag_lines id.now) self.old) }
    {
        match node.get("flags") {
            None => Ok(true),
            Some(flags) => self.flag_lines(id, flags),
        }
    }

    fn own_text(&mut self, id: &[u8], kind: &[u8], node: &Value) -> Result<bool, NoMemory>
        ensures { IfOk result (λ goes. going goes self.new
            ≡ if_there (get (codes "text") (view node.now)) (text_line id.now kind.now) self.old) }
    {
        match node.get("text") {
            None => Ok(true),
            Some(text) => self.text_line(id, kind, text),
        }
    }

    fn own_local(&mut self, id: &[u8], node: &Value) -> Result<bool, NoMemory>
        ensures { IfOk result (λ goes. going goes self.new
            ≡ if_there (get (codes "local") (view node.now)) (local_lines id.now) self.old) }
    {
        match node.get("local") {
            None => Ok(true),
            Some(local) => self.local_lines(id, local),
        }
    }

    /// The line of a size.
    fn size_line(&mut self, id: &[u8], value: &Value) -> Result<bool, NoMemory>
        ensures { IfOk result (λ goes. going goes self.new ≡ size_line id.now (view value.now) self.old) }
    {
        let Some((w, h)) = two(value) else {
            return Ok(false);
        };
        let mut first = Buffer::new();
        let mut second = Buffer::new();
        let Some(w) = extent_word(w, &mut first) else {
            return Ok(false);
        };
        let Some(h) = extent_word(h, &mut second) else {
            return Ok(false);
        };
        let line = line_of_three(self.alloc, b"size", id, w, h)?;
        self.put(&line)
    }

    /// The line of a place.
    fn pos_line(&mut self, id: &[u8], value: &Value) -> Result<bool, NoMemory>
        ensures { IfOk result (λ goes. going goes self.new ≡ pos_line id.now (view value.now) self.old) }
    {
        let Some((x, y)) = two(value) else {
            return Ok(false);
        };
        let mut first = Buffer::new();
        let mut second = Buffer::new();
        let Some(x) = number_word(x, &mut first) else {
            return Ok(false);
        };
        let Some(y) = number_word(y, &mut second) else {
            return Ok(false);
        };
        let line = line_of_three(self.alloc, b"pos", id, x, y)?;
        self.put(&line)
    }

    /// A line for each flag.
    fn flag_lines(&mut self, id: &[u8], value: &Value) -> Result<bool, NoMemory>
        ensures { IfOk result (λ goes. going goes self.new ≡ flag_lines id.now (view value.now) self.old) }
    {
        let Some(flags) = value.as_array() else {
            return Ok(false);
        };
        self.each_flag(id, flags)
    }

    #[tactic(auto, using(crate::proofs::Lists::each_done))]
    fn each_flag(&mut self, id: &[u8], flags: &[Value]) -> Result<bool, NoMemory>
        ensures { IfOk result (λ goes. going goes self.new
            ≡ each (λ flag. put_flag id.now (string_word flag)) (items_view flags.now) self.old) }
    {
        for flag in flags {
            if !self.flag_line(id, flag)? {
                return Ok(false);
            }
        }
        Ok(true)
    }

    fn flag_line(&mut self, id: &[u8], value: &Value) -> Result<bool, NoMemory>
        ensures { IfOk result
            (λ goes. going goes self.new ≡ put_flag id.now (string_word (view value.now)) self.old) }
    {
        let Some(flag) = string_word(value) else {
            return Ok(false);
        };
        let line = line_of_three(self.alloc, b"flag", id, flag, b"on")?;
        self.put(&line)
    }

    /// The line of a text, which labels and checkboxes alone have.
    fn text_line(&mut self, id: &[u8], kind: &[u8], value: &Value) -> Result<bool, NoMemory>
        ensures { IfOk result (λ goes. going goes self.new ≡ text_line id.now kind.now (view value.now) self.old) }
    {
        if kind != b"label".as_slice() && kind != b"checkbox".as_slice() {
            return Ok(false);
        }
        let Some(text) = value.as_str() else {
            return Ok(false);
        };
        if !are_in_text(text.as_bytes()) {
            return Ok(false);
        }
        let word = quoted(self.alloc, text.as_bytes())?;
        let line = line_of_two(self.alloc, b"text", id, &word)?;
        self.put(&line)
    }
}
