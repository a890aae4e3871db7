//! Links and routes, read from JSON.
ghost use Rattle.sc_json_text.specs.rows.Links.{link_json, FitsLink};
ghost use Rattle.sc_json_text.specs.rows.Links.{route_json, FitsRoute};

use crate::errors::RowError;
use crate::from_json::{FromJson, Present};
use crate::objects::{pair_of, triple_of};
use sc_words::{Link, Route};
use serde_json::Value as Json;
use std::alloc::Global;

impl FromJson for Link {
    ghost json_of = { link_json };

    ghost Fits = { FitsLink };

    fn from_json(alloc: Global, json: &Json) -> Result<Link, RowError> {
        let (group, members) = pair_of(alloc, json, "group", "members")?;
        Ok(Link { group, members })
    }
}

impl FromJson for Route {
    ghost json_of = { route_json };

    ghost Fits = { FitsRoute };

    fn from_json(alloc: Global, json: &Json) -> Result<Route, RowError> {
        let (group, lo, members) = triple_of(alloc, json, "group", "lo", "members")?;
        Ok(Route { group, lo, members })
    }
}

impl Present for Route {
    ghost use Rattle.sc_json_read.specs.Presence.{route_there};

    ghost is_there = { route_there };
}
