//! Lists of texts in which `*` stands for everything.

ghost use Rattle.std.specs.Prelude.{◌≡◌, map, string_bytes};
ghost use Rattle.apf_matching.specs.Matches as spec;

// Whether the text is one of these.
pub(crate) fn is_among(texts: &[String], text: &str) -> bool
    ensures { result ≡ spec.is_among (map string_bytes texts.now) text.now }
{
    for one in texts {
        if one.as_str() == text {
            return true;
        }
    }
    false
}

/// Whether the text is one of these, or `*` is.
pub(crate) fn allows(texts: &[String], text: &str) -> bool
    ensures { result ≡ spec.allows (map string_bytes texts.now) text.now }
{
    is_among(texts, "*") || is_among(texts, text)
}

// Whether a path is what a non-resource URL stands for.
fn is_path(url: &str, path: &str) -> bool
    ensures { result ≡ spec.is_path url.now path.now }
{
    if url == "*" || url == path {
        return true;
    }
    let (url, path) = (url.as_bytes(), path.as_bytes());
    if !url.ends_with(b"*") {
        return false;
    }
    let stem = &url[..url.len() - 1];
    path.starts_with(stem) && (stem.ends_with(b"/") || path[stem.len()..].starts_with(b"/"))
}

/// Whether a path is what one of these non-resource URLs stands for.
pub(crate) fn allows_path(urls: &[String], path: &str) -> bool
    ensures { result ≡ spec.allows_path (map string_bytes urls.now) path.now }
{
    for url in urls {
        if is_path(url.as_str(), path) {
            return true;
        }
    }
    false
}
