//! What a run in rounds was asked for.

use apf_level::life::Naming;
use std::marker::Brand;

/// Stands for one level, for the requests of a run on it, and for how many rounds the run has.
pub trait Plan: Naming {
    ghost use Rattle.std.specs.Prelude.{ℕ, List};
    ghost use Rattle.apf_files.specs.declared.requests.Request.{Request};

    ghost requests: { List Request };

    ghost rounds: { ℕ };
}

impl Plan for Brand {
    ghost use Rattle.std.specs.Prelude.{[]};

    ghost requests = { [] };

    ghost rounds = { 0 };
}
