//! Mails, read from their texts.
ghost use Rattle.sc_json_text.specs.rows.Mails.{mail_json, FitsMail};

use crate::from_text::FromText;
use crate::parts::three_of;
use sc_mail::Mail;
use std::alloc::Global;

impl FromText for Mail {
    ghost json_of = { mail_json };

    ghost Fits = { FitsMail };

    fn take(alloc: Global, bytes: &[u8]) -> Option<(Mail, &[u8])> {
        let (body, from, to, rest) = three_of(
            alloc,
            bytes,
            br#"{"body":"#,
            br#","from":"#,
            br#","to":"#,
            b"}",
        )?;
        Some((Mail { from, to, body }, rest))
    }
}
