//! The lines of nodes with those below them, and of a scene.
ghost use Rattle.scene_json.specs.Scenes.{head, in_nodes, node_itself, node_lines, node_of, scene_lines};
ghost use Rattle.scene_json.specs.Writing.{each, going, if_there, put_line};
ghost use Rattle.serde_json.specs.Find.{get};
ghost use Rattle.serde_json.specs.View.{items_view, view};
ghost use Rattle.std.specs.Prelude.{◌≡◌, [], ◌∷◌, IfOk, codes};

use crate::lines::line_of_three;
use crate::members::{has_one, head};
use crate::writer::Writer;
use gui_base::NoMemory;
use itoa::Buffer;
use serde_json::Value;

/// How deep nodes may stand.
const LEVELS: u32 = 15;

impl Writer {
    /// The lines of a scene, whose nodes stand on the first screen.
    pub(crate) fn scene_lines(&mut self, value: &Value) -> Result<bool, NoMemory>
        ensures { IfOk result (λ goes. going goes self.new ≡ scene_lines (view value.now) self.old) }
    {
        if !has_one(value) {
            return Ok(false);
        }
        let Some(children) = value.get("children") else {
            return Ok(false);
        };
        let Some(nodes) = children.as_array() else {
            return Ok(false);
        };
        self.each_node(b"3", nodes, LEVELS)
    }

    /// The lines of these nodes and of those below them, down to so many levels.
    #[cycle(nodes)]
    #[tactic(auto, using(crate::proofs::Lists::each_done))]
    fn each_node(&mut self, parent: &[u8], nodes: &[Value], levels: u32) -> Result<bool, NoMemory>
        ensures { IfOk result (λ goes. going goes self.new
            ≡ each (node_lines levels parent.now) (items_view nodes.now) self.old) }
    {
        for node in nodes {
            if !self.node_lines(parent, node, levels)? {
                return Ok(false);
            }
        }
        Ok(true)
    }

    /// The lines of a node and of those below it, down to so many levels.
    #[cycle(nodes)]
    #[tactic(auto, using(crate::proofs::Levels::more_levels, crate::proofs::Levels::no_levels))]
    fn node_lines(&mut self, parent: &[u8], node: &Value, levels: u32) -> Result<bool, NoMemory>
        ensures { IfOk result
            (λ goes. going goes self.new ≡ node_lines levels parent.now (view node.now) self.old) }
    {
        if levels == 0 {
            return Ok(false);
        }
        self.node_above(parent, node, levels - 1)
    }

    /// The lines of a node and of those below it, which have so many levels.
    #[cycle(nodes)]
    fn node_above(&mut self, parent: &[u8], node: &Value, levels: u32) -> Result<bool, NoMemory>
        ensures { IfOk result (λ goes. going goes self.new
            ≡ node_of (node_lines levels) parent.now (view node.now) (head (view node.now)) self.old) }
    {
        let Some((number, kind)) = head(node) else {
            return Ok(false);
        };
        let mut buffer = Buffer::new();
        let id = buffer.format(number).as_bytes();
        if !self.node_itself(number, id, parent, kind, node)? {
            return Ok(false);
        }
        self.below(id, node, levels)
    }

    /// The lines of the nodes below a node.
    #[cycle(nodes)]
    fn below(&mut self, id: &[u8], node: &Value, levels: u32) -> Result<bool, NoMemory>
        ensures { IfOk result (λ goes. going goes self.new
            ≡ if_there (get (codes "children") (view node.now)) (in_nodes (node_lines levels id.now)) self.old) }
    {
        let Some(children) = node.get("children") else {
            return Ok(true);
        };
        let Some(nodes) = children.as_array() else {
            return Ok(false);
        };
        self.each_node(id, nodes, levels)
    }

    /// The lines of a node alone.
    fn node_itself(
        &mut self,
        number: i64,
        id: &[u8],
        parent: &[u8],
        kind: &[u8],
        node: &Value,
    ) -> Result<bool, NoMemory>
        ensures { IfOk result (λ goes. going goes self.new
            ≡ node_itself number id.now parent.now kind.now (view node.now) self.old) }
    {
        Ok(
            self.put_id(number)?
                && self.new_line(id, parent, kind)?
                && self.own_lines(id, kind, node)?,
        )
    }

    /// The line that makes an object.
    fn new_line(&mut self, id: &[u8], parent: &[u8], kind: &[u8]) -> Result<bool, NoMemory>
        ensures { IfOk result (λ goes. going goes self.new
            ≡ put_line (codes "new") (id.now ∷ parent.now ∷ kind.now ∷ []) self.old) }
    {
        let line = line_of_three(self.alloc, b"new", id, parent, kind)?;
        self.put(&line)
    }
}
