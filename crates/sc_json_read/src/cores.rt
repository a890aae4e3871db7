//! Groups, read from JSON.
ghost use Rattle.std.specs.Prelude.{◌≡◌, IfOk, codes};
ghost use Rattle.serde_json.specs.View.{view};
ghost use Rattle.sc_words.specs.declared.commands.cores.Lock.{Lock};
ghost use Rattle.sc_json_text.specs.rows.Shapes.{variant as variant_json};
ghost use Rattle.sc_json_read.specs.Reading.{Finds};
ghost use Rattle.sc_json_text.specs.rows.Cores.{lock_json, FitsLock};
ghost use Rattle.sc_json_text.specs.rows.Cores.{core_json, FitsCore};
ghost use Rattle.sc_json_text.specs.rows.Cores.{base_json, FitsBase};

use crate::errors::RowError;
use crate::from_json::FromJson;
use crate::objects::{four_of, pair_of, triple_of, twelve_of};
use crate::tagged::{variant_parts, word};
use sc_words::{Base, Core, Lock};
use serde_json::Value as Json;
use std::alloc::Global;

fn lock_coordinating(alloc: Global, content: &Json) -> Result<Lock, RowError>
    ensures finds { (tx : _) (body : _) (order : _) (heard : _)
        → FitsLock (Lock.Coordinating tx body order heard)
        → variant_json (codes "Coordinating") (view content.now)
        ≡ lock_json (Lock.Coordinating tx body order heard)
        → Finds (Lock.Coordinating tx body order heard) result }
    ensures exact { IfOk result (λ value.
        variant_json (codes "Coordinating") (view content.now) ≡ lock_json value) }
{
    let (body, heard, order, tx) = four_of(alloc, content, "body", "heard", "order", "tx")?;
    Ok(Lock::Coordinating {
        tx,
        body,
        order,
        heard,
    })
}

fn lock_promised(alloc: Global, content: &Json) -> Result<Lock, RowError>
    ensures finds { (tx : _) (offer : _) → FitsLock (Lock.Promised tx offer)
        → variant_json (codes "Promised") (view content.now) ≡ lock_json (Lock.Promised tx offer)
        → Finds (Lock.Promised tx offer) result }
    ensures exact { IfOk result (λ value.
        variant_json (codes "Promised") (view content.now) ≡ lock_json value) }
{
    let (offer, tx) = pair_of(alloc, content, "offer", "tx")?;
    Ok(Lock::Promised { tx, offer })
}

fn lock_watching(alloc: Global, content: &Json) -> Result<Lock, RowError>
    ensures finds { (tx : _) (watch : _) → FitsLock (Lock.Watching tx watch)
        → variant_json (codes "Watching") (view content.now) ≡ lock_json (Lock.Watching tx watch)
        → Finds (Lock.Watching tx watch) result }
    ensures exact { IfOk result (λ value.
        variant_json (codes "Watching") (view content.now) ≡ lock_json value) }
{
    let (tx, watch) = pair_of(alloc, content, "tx", "watch")?;
    Ok(Lock::Watching { tx, watch })
}

impl FromJson for Lock {
    ghost json_of = { lock_json };

    ghost Fits = { FitsLock };

    fn from_json(alloc: Global, json: &Json) -> Result<Lock, RowError> {
        let Some((name, content)) = variant_parts(json) else {
            return Err(RowError::NoRow);
        };
        match name {
            "Free" => word(json, Lock::Free),
            "Coordinating" => lock_coordinating(alloc, content),
            "Promised" => lock_promised(alloc, content),
            "Watching" => lock_watching(alloc, content),
            _ => Err(RowError::NoRow),
        }
    }
}

impl FromJson for Core {
    ghost json_of = { core_json };

    ghost Fits = { FitsCore };

    fn from_json(alloc: Global, json: &Json) -> Result<Core, RowError> {
        let ((arc, begun, born, decided, first, gone), (id, lock, members, pred, succ, voted)) =
            twelve_of(
                alloc,
                json,
                ("arc", "begun", "born", "decided", "first", "gone"),
                ("id", "lock", "members", "pred", "succ", "voted"),
            )?;
        Ok(Core {
            id,
            first,
            arc,
            members,
            succ,
            pred,
            lock,
            begun,
            decided,
            voted,
            born,
            gone,
        })
    }
}

impl FromJson for Base {
    ghost json_of = { base_json };

    ghost Fits = { FitsBase };

    fn from_json(alloc: Global, json: &Json) -> Result<Base, RowError> {
        let (clients, core, pairs) = triple_of(alloc, json, "clients", "core", "pairs")?;
        Ok(Base {
            core,
            pairs,
            clients,
        })
    }
}
