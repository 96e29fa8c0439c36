//! A cluster, the seats of its server, and how often each request comes.

ghost use Rattle.std.specs.Prelude.{◌≡◌, ◌≤◌, ◌*◌, map, vec_len, OnOk};
ghost use Rattle.apf_matching.specs.Limits.{max_seats};
ghost use Rattle.apf_objects.specs.Cluster.{HasCatchAll, most_levels};

use apf_objects::Cluster;
use std::alloc::Global;

/// How often a request may be made to come at most.
pub const MAX_RATE: u32 = 1_000;

/// A number that was set of what has this name.
#[derive(Debug, PartialEq, Eq, Drop)]
pub struct Assigned {
    pub name: String,
    pub number: u32,
}

/// A cluster, the seats of its server, and how often each request comes.
#[derive(Debug, PartialEq, Eq, Drop)]
pub struct Scenario {
    pub cluster: Cluster,
    /// The server's seats, 1 to 1,000,000.
    pub seats: u32,
    /// The nominal limits that were fixed, each with its level's name. The last one of a name counts.
    pub nominal: Vec<Assigned>,
    /// How often each request of a user comes, where that was set. The last one of a name counts.
    pub user_rates: Vec<Assigned>,
    /// The same of a schema.
    pub schema_rates: Vec<Assigned>,
    pub ghost catch_all: { HasCatchAll cluster },
    pub ghost few_levels: { vec_len cluster.levels ≤ most_levels },
    pub ghost some_seats: { 1 ≤ seats },
    pub ghost few_seats: { seats ≤ max_seats },
}

impl Scenario {
    ghost use Rattle.apf_changes.specs.Scenarios.{unchanged, scenario_view};
    ghost use Rattle.apf_objects.specs.Cluster.{cluster_view};

    /// A cluster as it is, on a server with this many seats.
    pub fn new(alloc: Global, cluster: Cluster, seats: u32) -> Scenario
        requires catch_all { HasCatchAll cluster }
        requires few_levels { vec_len cluster.levels ≤ most_levels }
        requires some_seats { 1 ≤ seats }
        requires few_seats { seats ≤ max_seats }
        ensures { scenario_view result ≡ unchanged (cluster_view cluster) seats }
    {
        Scenario {
            cluster,
            seats,
            nominal: Vec::new(alloc),
            user_rates: Vec::new(alloc),
            schema_rates: Vec::new(alloc),
        }
    }
}
