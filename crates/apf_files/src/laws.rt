//! What is true of every JSON text and of its values, for those who read one in their own way. The functions run no code:
//! each contract is a law.

ghost use Rattle.std.specs.Prelude.{◌≡◌, ℕ, Bool, List, length, Some, None, String, string_bytes};
ghost use Rattle.std.specs.Global.{Global};
ghost use Rattle.std.specs.List.{list_all};
ghost use Rattle.std.specs.Map.{keys_of};
ghost use Rattle.std.specs.Str.{IsUtf8};
ghost use Rattle.serde_json.specs.Data.{Data};
ghost use Rattle.serde_json.specs.Read.{read};
ghost use Rattle.serde_json.specs.View.{items_view, members_view};
ghost use Rattle.serde_json.specs.declared.value.Value.{Value as ValueOf};
ghost use Rattle.apf_files.specs.JsonFile.{all_known, value_of};
ghost use Rattle.apf_files.specs.RequestsFile.{items_count};

/// The law of what bytes are: the value that was read of them, where they are a text; and none where nothing was.
pub fn every_text_is_what_was_read()
    ensures read { (bytes : List ℕ) (d : Data) → IsUtf8 bytes → read bytes ≡ Some d → value_of bytes ≡ Some d }
    ensures none { (bytes : List ℕ) → (IsUtf8 bytes → read bytes ≡ None) → value_of bytes ≡ None }
{}

/// The law of an object's keys: a test of each key of its map is the test of each member.
pub fn every_key_is_a_member()
    ensures { (is_known : List ℕ → Bool) (es : List (String Global × ValueOf))
        → list_all (λ name. is_known (string_bytes name)) (keys_of es) ≡ all_known is_known (members_view es) }
{}

/// The law of an array's members: there are as many as its list has.
pub fn every_item_is_counted()
    ensures { (vs : List ValueOf) → items_count (items_view vs) ≡ length vs }
{}
