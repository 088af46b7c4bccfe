//! What the texts of scripts are.

ghost use Rattle.std.specs.Prelude.{◌≡◌, ◌≤◌, ◌↔◌, List, ℕ, Ok};
ghost use Rattle.pq_model.specs.declared.marks.Act.{Act};
ghost use Rattle.inst_text.specs.Script.{IsScriptText, script_of};

/// Law: bytes read as lanes, of which so many are allowed, exactly where they are a text of them.
pub fn script_texts_are_read()
    ensures { (allowed : ℕ) (bytes : List ℕ) (lanes : List (List Act)) → 1 ≤ allowed
        → (script_of allowed bytes ≡ Ok lanes) ↔ IsScriptText allowed bytes lanes }
{}
