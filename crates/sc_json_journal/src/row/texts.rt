//! The text of a row, and the row of a text.
ghost use Rattle.std.specs.Prelude.{◌≡◌, IfOk, OnOk, Err};
ghost use Rattle.sc_actor.specs.declared.rows.Row.{Row};
ghost use Rattle.sc_words.specs.declared.commands.orders.OrderLine.{OrderLine};
ghost use Rattle.sc_mail.specs.declared.bodies.Mail.{Mail};
ghost use Rattle.serde_json.specs.Read.{read};
ghost use Rattle.serde_json.specs.View.{view};
ghost use Rattle.std.specs.Prelude.{Some, None, IsUtf8, MatchResult};
ghost use Rattle.sc_json_text.specs.rows.RowText.{text_of, IsHeld};
ghost use Rattle.sc_json_read.specs.declared.errors.RowError.TheVariants as why;

use crate::row::rows::row_from_json;
use sc_actor::Row;
use sc_base::OutOfMemory;
use sc_json_fast::common_row;
use sc_json_read::RowError;
use sc_json_text::row_texts_read_back;
use sc_json_write::ToJson;
use sc_mail::Mail;
use sc_words::OrderLine;
use serde_json::Value as Json;
use std::alloc::Global;

/// Returns the row's text, without a line feed. Each row has one. `Err(OutOfMemory)`: memory ran
/// out.
#[tactic(auto, unfolding(sc_json_text::specs::rows::RowText::text_of, sc_json_text::specs::rows::RowText::IsHeld))]
pub fn row_text(alloc: Global, row: &Row<Mail, OrderLine>) -> Result<Vec<u8>, OutOfMemory>
    ensures text { IfOk result (λ text. text.items ≡ text_of row.now) }
    ensures held { OnOk result (IsHeld row.now) }
{
    row_texts_read_back();
    let json = row.to_json(alloc)?;
    Ok(json.to_vec(alloc)?)
}

// Returns the JSON that a text is.
fn json_of(alloc: Global, text: &[u8]) -> Result<Json, RowError>
    ensures { MatchResult result (λ json. read text.now ≡ Some (view json))
        (λ error. error ≡ RowError.NoRow → IsUtf8 text.now → read text.now ≡ None) }
{
    match Json::from_slice(alloc, text) {
        Ok(json) => Ok(json),
        Err(error) => {
            if error.is_memory() {
                Err(RowError::OutOfMemory)
            } else {
                Err(RowError::NoRow)
            }
        }
    }
}

// Returns the row with this text, by way of its JSON.
fn row_by_json(alloc: Global, text: &[u8]) -> Result<Row<Mail, OrderLine>, RowError>
    ensures text { IfOk result (λ row. text_of row ≡ text.now) }
    ensures held { IfOk result (λ row. IsHeld row) }
    ensures only { IfOk result (λ row. (other : Row Mail OrderLine) → IsHeld other
        → text_of other ≡ text.now → other ≡ row) }
    ensures none { result ≡ Err RowError.NoRow
        → (row : Row Mail OrderLine) → IsHeld row → text_of row ≡ text.now → ⊥ }
{
    row_texts_read_back();
    let json = json_of(alloc, text)?;
    let row = row_from_json(alloc, &json)?;
    if row_text(alloc, &row)?.as_slice() == text {
        Ok(row)
    } else {
        Err(RowError::NoRow)
    }
}

/// Returns the row with this text. `Err(NoRow)`: no row has it; another spelling of a row's text,
/// as one with a space, is no row's text. `Err(OutOfMemory)`: memory ran out.
///
/// Rows of common shapes are read at once; JSON is read and written only for the others.
pub fn read_row(alloc: Global, text: &[u8]) -> Result<Row<Mail, OrderLine>, RowError>
    ensures text { IfOk result (λ row. text_of row ≡ text.now) }
    ensures held { IfOk result (λ row. IsHeld row) }
    ensures only { IfOk result (λ row. (other : Row Mail OrderLine) → IsHeld other
        → text_of other ≡ text.now → other ≡ row) }
    ensures none { result ≡ Err RowError.NoRow
        → (row : Row Mail OrderLine) → IsHeld row → text_of row ≡ text.now → ⊥ }
{
    match common_row(alloc, text) {
        Some(row) => Ok(row),
        None => row_by_json(alloc, text),
    }
}
