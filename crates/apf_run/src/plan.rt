//! What a run was asked for.

use apf_level::Naming;
use std::marker::Brand;

/// Stands for one level, and for the requests of a run on it.
pub trait Plan: Naming {
    ghost use Rattle.std.specs.Prelude.{List};
    ghost use Rattle.apf_files.specs.declared.requests.Request.{Request};

    ghost requests: { List Request };
}

impl Plan for Brand {
    ghost use Rattle.std.specs.Prelude.{[]};

    ghost requests = { [] };
}
