//! What transactions do and ask, read from JSON.
ghost use Rattle.std.specs.Prelude.{◌≡◌, IfOk, codes};
ghost use Rattle.serde_json.specs.View.{view};
ghost use Rattle.sc_words.specs.declared.commands.bodies.Body.{Body};
ghost use Rattle.sc_json_text.specs.rows.Shapes.{variant as variant_json};
ghost use Rattle.sc_json_read.specs.Reading.{Finds};
ghost use Rattle.sc_json_text.specs.rows.Bodies.{body_json, FitsBody};
ghost use Rattle.sc_json_text.specs.rows.Bodies.{offer_json, FitsOffer};
ghost use Rattle.sc_json_text.specs.rows.Bodies.{watch_json, FitsWatch};

use crate::errors::RowError;
use crate::from_json::FromJson;
use crate::objects::{pair_of, single_of, six_of};
use crate::tagged::{variant_parts, word};
use sc_words::{Body, Offer, Watch};
use serde_json::Value as Json;
use std::alloc::Global;

fn body_repart(alloc: Global, content: &Json) -> Result<Body, RowError>
    ensures finds { (at : _) → FitsBody (Body.Repart at)
        → variant_json (codes "Repart") (view content.now) ≡ body_json (Body.Repart at)
        → Finds (Body.Repart at) result }
    ensures exact { IfOk result (λ value.
        variant_json (codes "Repart") (view content.now) ≡ body_json value) }
{
    let at = single_of(alloc, content, "at")?;
    Ok(Body::Repart { at })
}

fn body_migrate(alloc: Global, content: &Json) -> Result<Body, RowError>
    ensures finds { (node : _) → FitsBody (Body.Migrate node)
        → variant_json (codes "Migrate") (view content.now) ≡ body_json (Body.Migrate node)
        → Finds (Body.Migrate node) result }
    ensures exact { IfOk result (λ value.
        variant_json (codes "Migrate") (view content.now) ≡ body_json value) }
{
    let node = single_of(alloc, content, "node")?;
    Ok(Body::Migrate { node })
}

fn body_split(alloc: Global, content: &Json) -> Result<Body, RowError>
    ensures finds { (at : _) (child : _) → FitsBody (Body.Split at child)
        → variant_json (codes "Split") (view content.now) ≡ body_json (Body.Split at child)
        → Finds (Body.Split at child) result }
    ensures exact { IfOk result (λ value.
        variant_json (codes "Split") (view content.now) ≡ body_json value) }
{
    let (at, child) = pair_of(alloc, content, "at", "child")?;
    Ok(Body::Split { at, child })
}

impl FromJson for Body {
    ghost json_of = { body_json };

    ghost Fits = { FitsBody };

    fn from_json(alloc: Global, json: &Json) -> Result<Body, RowError> {
        let Some((name, content)) = variant_parts(json) else {
            return Err(RowError::NoRow);
        };
        match name {
            "Merge" => word(json, Body::Merge),
            "Repart" => body_repart(alloc, content),
            "Migrate" => body_migrate(alloc, content),
            "Split" => body_split(alloc, content),
            _ => Err(RowError::NoRow),
        }
    }
}

impl FromJson for Offer {
    ghost json_of = { offer_json };

    ghost Fits = { FitsOffer };

    fn from_json(alloc: Global, json: &Json) -> Result<Offer, RowError> {
        let (arc, body, by, coord, members, part) = six_of(
            alloc, json, "arc", "body", "by", "coord", "members", "part",
        )?;
        Ok(Offer {
            coord,
            part,
            arc,
            members,
            body,
            by,
        })
    }
}

impl FromJson for Watch {
    ghost json_of = { watch_json };

    ghost Fits = { FitsWatch };

    fn from_json(alloc: Global, json: &Json) -> Result<Watch, RowError> {
        let (by, coord, members, next, old, part) = six_of(
            alloc, json, "by", "coord", "members", "next", "old", "part",
        )?;
        Ok(Watch {
            coord,
            members,
            part,
            old,
            next,
            by,
        })
    }
}
