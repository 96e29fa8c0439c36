//! What a level asks of each request of a file.

ghost use Rattle.std.specs.Prelude.{◌≡◌, ◌≤◌, All, IfOk};
ghost use Rattle.apf_words.specs.Limits.{max_cost};
ghost use Rattle.apf_run.specs.Asks.{asks_of, charged_asks};

use apf_book::Ask;
use apf_files::Request;
use std::alloc::{AllocError, Global};

/// What a level asks of each request.
///
/// # Errors
///
/// `AllocError` if memory was refused.
pub fn asks_of_requests(alloc: Global, requests: &[Request]) -> Result<Vec<Ask>, AllocError>
    ensures { IfOk result (λ v. v.items ≡ asks_of requests.now) }
{
    requests
        .iter()
        .map(|request| Ask {
            width: request.width,
            hash: request.hash,
        })
        .collect(alloc)
}

/// What a level of one thread asks of each request, whose dispatch is charged its width.
///
/// # Errors
///
/// `AllocError` if memory was refused.
pub fn charged_asks_of(
    alloc: Global,
    requests: &[Request],
) -> Result<Vec<apf_local::Ask>, AllocError>
    ensures asks { IfOk result (λ v. v.items ≡ charged_asks requests.now) }
    ensures costs { IfOk result (λ v. All (λ a. (1 ≤ a.cost) × (a.cost ≤ max_cost)) v.items) }
{
    requests
        .iter()
        .map(|asked| apf_local::Ask {
            width: asked.width,
            hash: asked.hash,
            cost: asked.width.max(1),
        })
        .collect(alloc)
}
