//! The effect of an entry as JSON.
ghost use Rattle.std.specs.Prelude.{◌≡◌, ◌++◌, IfOk, OnOk};
ghost use Rattle.std.specs.Option.{option_copied};
ghost use Rattle.serde_json.specs.Data.{object, put, no_members};
ghost use Rattle.serde_json.specs.View.{view};
ghost use Rattle.serde_json.specs.Written.{compact_text};
ghost use Rattle.sc_words.specs.declared.commands.effects.Effect.TheVariants.{NotMine};
ghost use Rattle.sc_json_text.specs.rows.Shapes.{option_json, variant};
ghost use Rattle.sc_explain.specs.facts.Effects.{effect_json, FitsEffect};

use crate::facts::writing::{add, unit, variant_of, wrapped};
use crate::texts::{add_json, add_next, add_word};
use sc_base::{OutOfMemory, RingArc};
use sc_json_write::ToJson;
use sc_words::{Effect, Link};
use serde_json::{Map, Value as Json};
use std::alloc::Global;

// Returns a variant whose content is an object of one member.
fn variant_one<T: ToJson>(
    alloc: Global,
    name: &str,
    member: &str,
    value: &T,
) -> Result<Json, OutOfMemory>
    ensures json { IfOk result (λ json. view json ≡ variant name.now
        (object (put member.now (T.json_of value.now) no_members))) }
    ensures fits { OnOk result (T.Fits value.now) }
{
    let mut members = Map::new(alloc);
    add(&mut members, alloc, member, value)?;
    wrapped(alloc, name, Json::Object(members))
}

#[tactic(auto, unfolding(crate::specs::facts::Effects::effect_json, crate::specs::facts::Effects::FitsEffect))]
fn not_mine(alloc: Global, arc: &RingArc, succ: &Link) -> Result<Json, OutOfMemory>
    ensures json { IfOk result (λ json. view json ≡ effect_json (NotMine arc.now succ.now)) }
    ensures fits { OnOk result (FitsEffect (NotMine arc.now succ.now)) }
{
    let mut members = Map::new(alloc);
    add(&mut members, alloc, "arc", arc)?;
    add(&mut members, alloc, "succ", succ)?;
    wrapped(alloc, "NotMine", Json::Object(members))
}

// Returns the JSON of an effect.
#[tactic(auto, unfolding(crate::specs::facts::Effects::effect_json, crate::specs::facts::Effects::FitsEffect))]
fn effect_json(alloc: Global, effect: &Effect) -> Result<Json, OutOfMemory>
    ensures json { IfOk result (λ json. view json ≡ effect_json effect.now) }
    ensures fits { OnOk result (FitsEffect effect.now) }
{
    match effect {
        Effect::Done(reply) => variant_of(alloc, "Done", reply),
        Effect::Again(reply) => variant_of(alloc, "Again", reply),
        Effect::Stale { last } => variant_one(alloc, "Stale", "last", last),
        Effect::NotMine { arc, succ } => not_mine(alloc, arc, succ),
        Effect::Gone { into } => variant_one(alloc, "Gone", "into", into),
        Effect::NoEffect { tx } => variant_one(alloc, "NoEffect", "tx", tx),
        Effect::Idle => unit(alloc, "Idle"),
        Effect::Changed => unit(alloc, "Changed"),
        Effect::Voted(vote) => variant_of(alloc, "Voted", vote),
        Effect::Decided(outcome) => variant_of(alloc, "Decided", outcome),
        Effect::Refused(why) => variant_of(alloc, "Refused", why),
    }
}

fn by_json(alloc: Global, text: &mut Vec<u8>, effect: &Effect) -> Result<(), OutOfMemory>
    ensures { OnOk result (text.new.items ≡
        text.old.items ++ compact_text (effect_json effect.now)) }
{
    let json = effect_json(alloc, effect)?;
    add_json(alloc, text, &json)
}

// Appends an effect: that of a request that is carried out piece by piece, any other by its JSON.
fn add_known(alloc: Global, text: &mut Vec<u8>, effect: &Effect) -> Result<(), OutOfMemory>
    ensures { OnOk result (text.new.items ≡
        text.old.items ++ compact_text (effect_json effect.now)) }
{
    match effect {
        Effect::Done(reply) => {
            add_next(text, br#"{"Done":"#, reply)?;
            add_word(text, b"}")
        }
        _ => by_json(alloc, text, effect),
    }
}

/// Appends an effect to a text, or `null` where there is none.
pub(crate) fn add_effect(
    alloc: Global,
    text: &mut Vec<u8>,
    effect: Option<&Effect>,
) -> Result<(), OutOfMemory>
    ensures { OnOk result (text.new.items ≡
        text.old.items ++ compact_text (option_json effect_json (option_copied effect.entry))) }
{
    match effect {
        None => add_word(text, b"null"),
        Some(effect) => add_known(alloc, text, effect),
    }
}
