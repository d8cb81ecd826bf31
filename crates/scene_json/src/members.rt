//! The members that objects have, and the values of short lists.
ghost use Rattle.scene_json.specs.Scenes.{all_keys, has_keys, has_one, head, is_node_key, two};
ghost use Rattle.scene_json.specs.Words.{integer, string_word};
ghost use Rattle.serde_json.specs.Find.{as_array, as_object, get};
ghost use Rattle.serde_json.specs.View.{items_view, members_view, view};
ghost use Rattle.std.specs.Option.{option_and_then};
ghost use Rattle.std.specs.Prelude.{◌≡◌, Some, codes, option_map};

use crate::values::string_word;
use serde_json::{Map, Value};

/// The number and the kind of a node.
pub(crate) fn head(node: &Value) -> Option<(i64, &[u8])>
    ensures { option_map (λ t. (t.0, t.1.now)) result ≡ head (view node.now) }
{
    if !has_node_keys(node) {
        return None;
    }
    let number = number_of(node)?;
    let kind = kind_of(node)?;
    Some((number, kind))
}

fn number_of(node: &Value) -> Option<i64>
    ensures { result ≡ option_and_then integer (get (codes "id") (view node.now)) }
{
    node.get("id")?.as_i64()
}

fn kind_of(node: &Value) -> Option<&[u8]>
    ensures { option_map (λ w. w.now) result
        ≡ option_and_then string_word (get (codes "kind") (view node.now)) }
{
    string_word(node.get("kind")?)
}

/// Whether it is an object with the keys of a node alone.
fn has_node_keys(node: &Value) -> bool
    ensures { result ≡ has_keys is_node_key (as_object (view node.now)) }
{
    match node.as_object() {
        None => false,
        Some(members) => are_node_keys(members),
    }
}

fn are_node_keys(members: &Map<String, Value>) -> bool
    ensures { result ≡ all_keys is_node_key (members_view members.now.entries) }
{
    for (key, _) in members {
        if !is_node_key(key.as_bytes()) {
            return false;
        }
    }
    true
}

fn is_node_key(key: &[u8]) -> bool
    ensures { result ≡ is_node_key key.now }
{
    key == b"children".as_slice()
        || key == b"flags".as_slice()
        || key == b"id".as_slice()
        || key == b"kind".as_slice()
        || key == b"local".as_slice()
        || key == b"pos".as_slice()
        || key == b"size".as_slice()
        || key == b"text".as_slice()
}

/// Whether it is an object with one key.
pub(crate) fn has_one(value: &Value) -> bool
    ensures { result ≡ has_one (as_object (view value.now)) }
{
    match value.as_object() {
        None => false,
        Some(members) => is_one(members),
    }
}

#[tactic(auto, using(crate::proofs::Levels::one_member))]
fn is_one(members: &Map<String, Value>) -> bool
    ensures { result ≡ has_one (Some (members_view members.now.entries)) }
{
    members.len() == 1
}

/// The two values of a list of two.
pub(crate) fn two(value: &Value) -> Option<(&Value, &Value)>
    ensures { option_map (λ t. (view t.0.now, view t.1.now)) result ≡ two (as_array (view value.now)) }
{
    two_of(value.as_array()?)
}

/// The two values, if there are two.
#[tactic(auto, using(crate::proofs::Lists::two_other))]
fn two_of(values: &[Value]) -> Option<(&Value, &Value)>
    ensures { option_map (λ t. (view t.0.now, view t.1.now)) result ≡ two (Some (items_view values.now)) }
{
    if values.len() != 2 {
        return None;
    }
    let [a, b] = values else {
        return None;
    };
    Some((a, b))
}
