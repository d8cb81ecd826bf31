//! What is written of a scene, line by line. A method answers false if there is no scene; what the writer then
//! holds is not looked at.
ghost use Rattle.scene_json.specs.Writing.{going, nothing_written, put, put_id};
ghost use Rattle.std.specs.List.{list_any};
ghost use Rattle.std.specs.Ordering.{int_eq};
ghost use Rattle.std.specs.Prelude.{◌≡◌, ◌++◌, [], ◌∷◌, IfOk, OnOk};

use gui_base::NoMemory;
use line_texts::push;
use scene_script::parse_line;
use std::alloc::Global;
use std::marker::Model;

/// What is written so far: the text, and the ids of its nodes.
#[derive(Drop)]
pub(crate) struct Writer {
    text: Vec<u8>,
    ids: Vec<i64>,
    pub(crate) alloc: Global,
}

impl Model for Writer {
    ghost use Rattle.scene_json.specs.Writing.{Writing};

    ghost Value = { Writing };

    ghost view = { λ w. record { text = w.text.items; ids = w.ids.items } };
}

impl Writer {
    /// Nothing is written yet.
    pub(crate) fn new(alloc: Global) -> Writer
        ensures { result ≡ nothing_written }
    {
        Writer {
            text: Vec::new(alloc),
            ids: Vec::new(alloc),
            alloc,
        }
    }

    /// The text that is written.
    pub(crate) fn into_text(self) -> Vec<u8>
        ensures { result.items ≡ self.text }
    {
        self.text
    }

    /// Adds a line, if it is one of the language.
    #[tactic(auto, unfolding(crate::specs::Writing::put))]
    pub(crate) fn put(&mut self, line: &[u8]) -> Result<bool, NoMemory>
        ensures { IfOk result (λ goes. going goes self.new ≡ put line.now self.old) }
    {
        if parse_line(line).is_err() {
            return Ok(false);
        }
        push(&mut self.text, line)?;
        push(&mut self.text, b"\n")?;
        Ok(true)
    }

    /// Notes an id, if no node before has it.
    pub(crate) fn put_id(&mut self, id: i64) -> Result<bool, NoMemory>
        ensures { IfOk result (λ goes. going goes self.new ≡ put_id id self.old) }
    {
        if is_among(&self.ids, id) {
            return Ok(false);
        }
        push_id(&mut self.ids, id)?;
        Ok(true)
    }
}

fn push_id(ids: &mut Vec<i64>, id: i64) -> Result<(), NoMemory>
    ensures { OnOk result (ids.new.items ≡ ids.old.items ++ id ∷ []) }
{
    match ids.push(id) {
        Ok(()) => Ok(()),
        Err(_) => Err(NoMemory),
    }
}

fn is_among(ids: &[i64], id: i64) -> bool
    ensures { result ≡ list_any (λ other. int_eq other id) ids.now }
{
    ids.iter().any(|other| *other == id)
}
