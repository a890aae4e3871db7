//! The JSON of the rows of a journal: a definition for each type, and laws of every such text.
ghost use Rattle.std.specs.Prelude.{◌≡◌, ◌≤◌, length, true, false, Some, IsUtf8};
ghost use Rattle.serde_json.specs.Read.{read};
ghost use Rattle.serde_json.specs.Written.{has_float};
ghost use Rattle.sc_actor.specs.declared.rows.Row.{Row};
ghost use Rattle.sc_words.specs.declared.commands.orders.OrderLine.{OrderLine};
ghost use Rattle.sc_mail.specs.declared.bodies.Mail.{Mail};
ghost use Rattle.sc_json_text.specs.plain.Plain.{is_one_line};
ghost use Rattle.sc_json_text.specs.rows.Rows.{row_json};
ghost use Rattle.sc_json_text.specs.rows.RowText.{text_of, IsHeld};

/// Shows that the text of each row that the program's types can hold is one line, and has at least
/// as many bytes as the row sends mails.
pub fn row_texts_are_lines()
    ensures one_line { (row : Row Mail OrderLine) → IsHeld row
        → is_one_line (text_of row) ≡ true }
    ensures mails { (row : Row Mail OrderLine) → IsHeld row
        → length row.sent ≤ length (text_of row) }
{}

/// Shows that the text of each row that the program's types can hold is UTF-8, and that
/// `serde_json`'s parser finds the row's JSON in it. So two rows with one text have one JSON.
pub fn row_texts_read_back()
    ensures whole { (row : Row Mail OrderLine) → IsHeld row → has_float (row_json row) ≡ false }
    ensures back { (row : Row Mail OrderLine) → IsHeld row
        → read (text_of row) ≡ Some (row_json row) }
    ensures utf8 { (row : Row Mail OrderLine) → IsHeld row → IsUtf8 (text_of row) }
{}
