//! A text without its beginning or its end, and around the last of a character.

ghost use Rattle.std.specs.Prelude.{◌≡◌, ◌<◌, option_map};
ghost use Rattle.apf_matching.specs.Matches.{behind as rest_behind};
ghost use Rattle.apf_changes.specs.Texts as spec;

/// What stands behind this beginning, if the text begins with it.
pub(crate) fn behind<'a>(front: &str, text: &'a str) -> Option<&'a str>
    ensures { option_map (λ rest. rest.now) result ≡ rest_behind front.now text.now }
{
    text.strip_prefix(front)
}

/// What stands before this end, if the text ends with it.
pub(crate) fn ahead<'a>(end: &str, text: &'a str) -> Option<&'a str>
    ensures { option_map (λ rest. rest.now) result ≡ spec.ahead end.now text.now }
{
    text.strip_suffix(end)
}

/// What stands on both sides of the last `=` of a text.
pub(crate) fn around_equals(text: &str) -> Option<(&str, &str)>
    ensures { option_map (λ sides. spec.sides_view sides) result ≡ spec.around_last spec.equals_sign text.now }
{
    text.rsplit_once('=')
}

/// What stands on both sides of the last dot of a text.
pub(crate) fn around_dot(text: &str) -> Option<(&str, &str)>
    ensures { option_map (λ sides. spec.sides_view sides) result ≡ spec.around_last spec.dot text.now }
{
    text.rsplit_once('.')
}
