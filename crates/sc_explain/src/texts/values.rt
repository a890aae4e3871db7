//! Numbers, names, arcs, sets of nodes, keys, values, operations and replies, appended to a text.
ghost use Rattle.std.specs.Prelude.{◌≡◌, ◌++◌, codes, OnOk};
ghost use Rattle.serde_json.specs.Data.{string};
ghost use Rattle.serde_json.specs.Written.{compact_text};
ghost use Rattle.sc_json_text.specs.rows.Names.{draw_json};
ghost use Rattle.sc_json_text.specs.rows.Ops.{op_json, reply_json};
ghost use Rattle.sc_json_text.specs.rows.Sets.{arc_json, nodes_json};
ghost use Rattle.sc_json_text.specs.rows.Shapes.{number_json, option_json};

use crate::texts::pieces::{ToText, add_list, add_next, add_number, add_string, add_word};
use sc_base::{Draw, Key, Members, Op, OutOfMemory, Reply, RingArc, Value};

impl ToText for u16 {
    ghost json_of = { number_json };

    fn add_to(&self, text: &mut Vec<u8>) -> Result<(), OutOfMemory> {
        add_number(text, *self as u64)
    }
}

impl ToText for u32 {
    ghost json_of = { number_json };

    fn add_to(&self, text: &mut Vec<u8>) -> Result<(), OutOfMemory> {
        add_number(text, *self as u64)
    }
}

impl ToText for u64 {
    ghost json_of = { number_json };

    fn add_to(&self, text: &mut Vec<u8>) -> Result<(), OutOfMemory> {
        add_number(text, *self)
    }
}

// Appends the name of this number of this node.
fn add_draw(text: &mut Vec<u8>, node: u16, count: u32) -> Result<(), OutOfMemory>
    ensures { OnOk result (text.new.items ≡ text.old.items
        ++ compact_text (draw_json (record { node = node; count = count }))) }
{
    add_next(text, b"\"", &node)?;
    add_next(text, b".", &count)?;
    add_word(text, b"\"")
}

impl ToText for Draw {
    ghost json_of = { draw_json };

    fn add_to(&self, text: &mut Vec<u8>) -> Result<(), OutOfMemory> {
        add_draw(text, self.node, self.count)
    }
}

impl ToText for Option<Draw> {
    ghost json_of = { option_json draw_json };

    fn add_to(&self, text: &mut Vec<u8>) -> Result<(), OutOfMemory> {
        match self {
            None => add_word(text, b"null"),
            Some(name) => name.add_to(text),
        }
    }
}

impl ToText for Members {
    ghost json_of = { nodes_json };

    fn add_to(&self, text: &mut Vec<u8>) -> Result<(), OutOfMemory> {
        add_list(text, self.as_slice())
    }
}

impl ToText for RingArc {
    ghost json_of = { arc_json };

    fn add_to(&self, text: &mut Vec<u8>) -> Result<(), OutOfMemory> {
        add_next(text, b"[", &self.lo())?;
        add_next(text, b",", &self.len())?;
        add_word(text, b"]")
    }
}

impl ToText for Key {
    ghost json_of = { string };

    fn add_to(&self, text: &mut Vec<u8>) -> Result<(), OutOfMemory> {
        add_string(text, self.bytes())
    }
}

impl ToText for Value {
    ghost json_of = { string };

    fn add_to(&self, text: &mut Vec<u8>) -> Result<(), OutOfMemory> {
        add_string(text, self.bytes())
    }
}

impl ToText for Option<Value> {
    ghost json_of = { option_json string };

    fn add_to(&self, text: &mut Vec<u8>) -> Result<(), OutOfMemory> {
        match self {
            None => add_word(text, b"null"),
            Some(value) => value.add_to(text),
        }
    }
}

// Appends a fixed word, a key, and the end of an operation.
fn add_keyed(text: &mut Vec<u8>, word: &[u8], key: &Key) -> Result<(), OutOfMemory>
    ensures { OnOk result (text.new.items ≡ text.old.items
        ++ (word.now ++ (compact_text (string key.now) ++ codes "}}"))) }
{
    add_next(text, word, key)?;
    add_word(text, b"}}")
}

// Appends a fixed word, a key, a value, and the end of an operation.
fn add_pair(text: &mut Vec<u8>, word: &[u8], key: &Key, value: &Value) -> Result<(), OutOfMemory>
    ensures { OnOk result (text.new.items ≡ text.old.items
        ++ (word.now ++ (compact_text (string key.now)
        ++ (codes ",\"value\":" ++ (compact_text (string value.now) ++ codes "}}"))))) }
{
    add_next(text, word, key)?;
    add_next(text, br#","value":"#, value)?;
    add_word(text, b"}}")
}

impl ToText for Op {
    ghost json_of = { op_json };

    fn add_to(&self, text: &mut Vec<u8>) -> Result<(), OutOfMemory> {
        match self {
            Op::Get { key } => add_keyed(text, br#"{"Get":{"key":"#, key),
            Op::Put { key, value } => add_pair(text, br#"{"Put":{"key":"#, key, value),
            Op::Del { key } => add_keyed(text, br#"{"Del":{"key":"#, key),
            Op::Add { key, value } => add_pair(text, br#"{"Add":{"key":"#, key, value),
            Op::Cas { key, expect, value } => {
                add_next(text, br#"{"Cas":{"expect":"#, expect)?;
                add_pair(text, br#","key":"#, key, value)
            }
        }
    }
}

impl ToText for Reply {
    ghost json_of = { reply_json };

    fn add_to(&self, text: &mut Vec<u8>) -> Result<(), OutOfMemory> {
        add_next(text, br#"{"old":"#, &self.old)?;
        add_word(text, b"}")
    }
}
