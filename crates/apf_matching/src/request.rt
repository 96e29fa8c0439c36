//! What is known of a request.

/// What a request asks for.
#[derive(Clone, Copy, Debug, PartialEq, Eq)]
pub enum Target<'a> {
    /// A resource.
    Resource {
        /// The API group; the core's is the empty text.
        api_group: &'a str,
        /// The resource, as `pods` or `pods/log`.
        resource: &'a str,
        /// The namespace; the empty text where there is none.
        namespace: &'a str,
    },
    /// A path that names no resource, as `/healthz`.
    Path(&'a str),
}

/// What is known of a request.
#[derive(Clone, Copy, Debug, PartialEq, Eq)]
pub struct Request<'a> {
    pub user: &'a str,
    /// The groups of the user, as the server has them: `system:authenticated` too.
    pub groups: &'a [&'a str],
    pub verb: &'a str,
    pub target: Target<'a>,
}
