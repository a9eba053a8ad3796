//! Some values of the definitions.

ghost use Rattle.std.specs.Prelude.{◌≡◌, [], ◌∷◌, Some, None, codes};
ghost use Rattle.list_text.specs.Keys.{key_in};
ghost use Rattle.list_text.specs.Words.{word};
ghost use Rattle.list_text.specs.Rows as rows;

/// Bytes in each form.
pub fn shown_bytes()
    ensures hex { word rows.plain_hex (codes "k1") ≡ codes "6b31" }
    ensures nothing { word rows.plain_hex [] ≡ codes "-" }
    ensures text { word rows.plain_text (codes "k 1") ≡ codes "\"k 1\"" }
    ensures escapes { word rows.plain_text (0 ∷ 34 ∷ 92 ∷ 126 ∷ 127 ∷ 255 ∷ [])
        ≡ codes "\"\\x00\\x22\\\\~\\x7f\\xff\"" }
    ensures no_text { word rows.plain_text [] ≡ codes "\"\"" }
    ensures json_hex { word rows.json_hex (codes "k1") ≡ codes "\"6b31\"" }
    ensures json_text { word rows.json_text (107 ∷ 34 ∷ 255 ∷ []) ≡ codes "\"k\\u0022\\u00ff\"" }
{}

/// Keys as they are given.
pub fn given_keys()
    ensures digits { key_in rows.plain_hex (codes "6b31") ≡ Some (codes "k1") }
    ensures upper_case { key_in rows.plain_hex (codes "FF") ≡ Some (255 ∷ []) }
    ensures nothing { key_in rows.plain_hex [] ≡ Some [] }
    ensures shown_nothing { key_in rows.plain_hex (codes "-") ≡ Some [] }
    ensures odd { key_in rows.plain_hex (codes "6b3") ≡ None }
    ensures no_digit { key_in rows.plain_hex (codes "6g") ≡ None }
    ensures text { key_in rows.plain_text (codes "user:1") ≡ Some (codes "user:1") }
    ensures minus_as_text { key_in rows.plain_text (codes "-") ≡ Some (codes "-") }
    ensures escapes { key_in rows.plain_text (codes "\\xff\\\\") ≡ Some (255 ∷ 92 ∷ []) }
    ensures broken_escape { key_in rows.plain_text (codes "a\\xf") ≡ None }
    ensures other_escape { key_in rows.plain_text (codes "\\n") ≡ None }
{}
