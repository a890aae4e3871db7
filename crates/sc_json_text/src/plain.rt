//! The JSON that journals hold: plain data, whose one text is ASCII on one line, and from which the
//! data are read back. Definitions and a law; no code runs.
ghost use Rattle.std.specs.Prelude.{◌≡◌, ◌≤◌, ℕ, List, length, Bool, true, false, Some, IsUtf8};
ghost use Rattle.serde_json.specs.Data.{Data, array, Items, item, Members, member};
ghost use Rattle.serde_json.specs.Events.{items_len};
ghost use Rattle.serde_json.specs.Read.{read};
ghost use Rattle.serde_json.specs.Written.{has_float, compact_text, items_text, members_text};
ghost use Rattle.sc_json_text.specs.plain.Plain.{IsPlain, is_one_line};

/// Shows that the text which is written for plain data is read back as these data, for data that
/// nest at most 127 deep. `whole` is what the writer asks of its value, `utf8` what makes the bytes
/// a text, and `one_line` that the text has no line feed. `items`, `item_parts` and `member_parts`
/// bound a list's length, and the lengths of the texts of parts, by the text that holds them.
pub fn plain_values_read_back()
    ensures whole { (d : Data) → IsPlain 127 d → has_float d ≡ false }
    ensures back { (d : Data) → IsPlain 127 d → read (compact_text d) ≡ Some d }
    ensures utf8 { (d : Data) → IsPlain 127 d → IsUtf8 (compact_text d) }
    ensures one_line { (d : Data) → IsPlain 127 d → is_one_line (compact_text d) ≡ true }
    ensures items { (ds : Items) → items_len ds ≤ length (compact_text (array ds)) }
    ensures item_parts { (later : Bool) (d : Data) (ds : Items)
        → (length (compact_text d) ≤ length (items_text later (item d ds)))
        × (length (items_text true ds) ≤ length (items_text later (item d ds))) }
    ensures member_parts { (later : Bool) (name : List ℕ) (d : Data) (ms : Members)
        → (length (compact_text d) ≤ length (members_text later (member name d ms)))
        × (length (members_text true ms) ≤ length (members_text later (member name d ms))) }
{}
