//! Rows, read from their JSON.
ghost use Rattle.std.specs.Prelude.{◌≡◌, IfOk};
ghost use Rattle.serde_json.specs.View.{view};
ghost use Rattle.sc_base.specs.Among.{Each};
ghost use Rattle.sc_actor.specs.declared.rows.Row.{Row};
ghost use Rattle.sc_words.specs.declared.commands.orders.OrderLine.{OrderLine};
ghost use Rattle.sc_mail.specs.declared.bodies.Mail.{Mail};
ghost use Rattle.sc_json_text.specs.rows.Shapes.{list_json};
ghost use Rattle.sc_json_text.specs.rows.Mails.{mail_json, FitsMail};
ghost use Rattle.sc_json_text.specs.rows.Rows.{row_json, FitsRow};
ghost use Rattle.sc_json_read.specs.Reading.{Finds};

use crate::row::mails::mails_from_json;
use sc_actor::Row;
use sc_base::Sequence;
use sc_json_read::{FromJson, RowError, triple_of};
use sc_mail::Mail;
use sc_words::OrderLine;
use serde_json::Value as Json;
use std::alloc::Global;

/// The mails that a row sends, as a member of the row's JSON.
#[derive(Drop)]
struct Sent {
    mails: Sequence<Mail>,
}

impl FromJson for Sent {
    ghost json_of = { λ sent. list_json mail_json sent.mails };

    ghost Fits = { λ sent. Each FitsMail sent.mails };

    fn from_json(alloc: Global, json: &Json) -> Result<Sent, RowError> {
        let mails = mails_from_json(alloc, json)?;
        Ok(Sent { mails })
    }
}

/// Returns the row that has this JSON.
pub(crate) fn row_from_json(alloc: Global, json: &Json) -> Result<Row<Mail, OrderLine>, RowError>
    ensures finds { (row : Row Mail OrderLine) → FitsRow row → view json.now ≡ row_json row
        → Finds row result }
    ensures exact { IfOk result (λ row. view json.now ≡ row_json row) }
{
    let (event, sent, who): (_, Sent, _) = triple_of(alloc, json, "event", "sent", "who")?;
    Ok(Row {
        who,
        event,
        sent: sent.mails,
    })
}
