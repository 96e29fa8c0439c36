//! The threads of a test, each with tokens of its own.

ghost use denote.Param.Send.{IsSync};
ghost use Rattle.std.specs.Prelude.{◌≡◌, length, All};
ghost use Rattle.apf_gate.specs.Tokens.{pass_gate, desk_gate, station_gate};
ghost use Rattle.apf_gate_tests.specs.Stages.{IsNamed};

use crate::cancelling::{Round, Served, cancel, serve as serve_waiting};
use crate::closing::{Closes, close};
use crate::desks::StagedDesk;
use crate::requests::Request;
use crate::serving::{Counts, serve, set_limits};
use crate::sleeping::{Sleeps, cancel_later, grant_later, sleep, sleep_beside};
use crate::stand::Stand;
use apf_gate::{Gate, Station};
use std::alloc::Global;
use std::process::Abort;
use std::sync::Wait;
use std::thread;
use std::thread::{Threads, join_mut};

/// What each request does, in one of four threads.
#[derive(Clone, Copy)]
pub enum RequestWork<'a> {
    /// It takes its seats, runs and gives them back.
    Serve(&'a Counts),
    /// It sleeps until it is decided.
    Sleep(&'a Sleeps),
}

/// What each Station does, in a thread of its own.
#[derive(Clone, Copy)]
pub enum StationWork<'a> {
    /// It sets limits.
    SetLimits(&'a Counts),
    /// It cancels the first request.
    Cancel(&'a Round),
    /// It closes the level.
    Close(&'a Closes),
    /// It sleeps until the first request is decided.
    Sleep(&'a Sleeps),
    /// It lets one other sleep, and cancels the first request.
    CancelLater(&'a Sleeps),
}

/// What the Desk does, in a thread of its own.
#[derive(Clone, Copy)]
pub enum DeskWork<'a> {
    /// It serves the first request, which waits.
    Serve(&'a Round),
    /// It lets this many others sleep, and grants the first request.
    GrantLater(&'a Sleeps, u64),
}

fn request_works<R: Wait>(rt: &R, gate: &Gate<Global>, work: RequestWork<'_>, request: &mut Request)
    requires { pass_gate request.old.pass ≡ gate.now }
    ensures { pass_gate request.new.pass ≡ gate.now }
{
    match work {
        RequestWork::Serve(counts) => serve(gate, counts, request),
        RequestWork::Sleep(sleeps) => sleep(rt, gate, sleeps, request),
    }
}

fn station_works<R: Wait>(
    rt: &R,
    gate: &Gate<Global>,
    work: StationWork<'_>,
    thread: usize,
    station: &mut Station,
)
    requires some { IsNamed gate.now.shape 0 }
    requires own { station_gate station.old ≡ gate.now }
    ensures { station_gate station.new ≡ gate.now }
{
    match work {
        StationWork::SetLimits(counts) => set_limits(gate, counts, station),
        StationWork::Cancel(round) => cancel(gate, round, thread, station),
        StationWork::Close(closes) => close(gate, closes, thread, station),
        StationWork::Sleep(sleeps) => sleep_beside(rt, gate, sleeps, station),
        StationWork::CancelLater(sleeps) => cancel_later(gate, sleeps, station),
    }
}

fn desk_works(gate: &Gate<Global>, work: DeskWork<'_>, desk: &mut StagedDesk) -> Served
    requires some { IsNamed gate.now.shape 0 }
    requires own { desk_gate desk.old.desk ≡ gate.now }
    ensures { desk_gate desk.new.desk ≡ gate.now }
{
    match work {
        DeskWork::Serve(round) => serve_waiting(gate, round, desk),
        DeskWork::GrantLater(sleeps, others) => grant_later(gate, sleeps, others, desk),
    }
}

// The requests work, in four threads.
fn requests_work<R: Threads + Wait + Sync>(
    rt: &R,
    gate: &Gate<Global>,
    work: RequestWork<'_>,
    requests: &mut [Request],
)
    requires { All (λ r. pass_gate r.pass ≡ gate.now) requests.old }
    ensures count { length requests.new ≡ length requests.old }
    ensures own { All (λ r. pass_gate r.pass ≡ gate.now) requests.new }
{
    thread::for_each_mut(
        rt,
        requests,
        4,
        &|_, request| request_works(rt, gate, work, request),
    );
}

// The Stations work, in eight threads.
fn stations_work<R: Threads + Wait + Sync>(
    rt: &R,
    gate: &Gate<Global>,
    work: StationWork<'_>,
    stations: &mut [Station],
)
    requires some { IsNamed gate.now.shape 0 }
    requires own { All (λ t. station_gate t ≡ gate.now) stations.old }
    ensures count { length stations.new ≡ length stations.old }
    ensures own { All (λ t. station_gate t ≡ gate.now) stations.new }
{
    thread::for_each_mut(
        rt,
        stations,
        8,
        &|k, station| station_works(rt, gate, work, k, station),
    );
}

// The requests work beside the Stations.
fn both_work<R: Threads + Wait + Sync>(
    rt: &R,
    gate: &Gate<Global>,
    work: (RequestWork<'_>, StationWork<'_>),
    requests: &mut [Request],
    stations: &mut [Station],
)
    requires some { IsNamed gate.now.shape 0 }
    requires requests { All (λ r. pass_gate r.pass ≡ gate.now) requests.old }
    requires stations { All (λ t. station_gate t ≡ gate.now) stations.old }
    ensures count { (length requests.new ≡ length requests.old) × (length stations.new ≡ length stations.old) }
    ensures requests { All (λ r. pass_gate r.pass ≡ gate.now) requests.new }
    ensures stations { All (λ t. station_gate t ≡ gate.now) stations.new }
{
    let (request_work, station_work) = work;
    join_mut(
        rt,
        &mut ||
            requires { IsSync R.row × All (λ r. pass_gate r.pass ≡ gate.now) requests.now }
            ensures { (length requests.exit.now ≡ length requests.entry.now) × All (λ r. pass_gate r.pass ≡ gate.entry.now) requests.exit.now }
        { requests_work(rt, gate, request_work, requests) },
        &mut ||
            requires { IsSync R.row × IsNamed gate.now.shape 0 × All (λ t. station_gate t ≡ gate.now) stations.now }
            ensures { (length stations.exit.now ≡ length stations.entry.now) × All (λ t. station_gate t ≡ gate.entry.now) stations.exit.now }
        { stations_work(rt, gate, station_work, stations) },
    );
}

// The Desk works beside the Stations.
fn desk_beside_stations<R: Threads + Wait + Sync>(
    rt: &R,
    gate: &Gate<Global>,
    work: (DeskWork<'_>, StationWork<'_>),
    desk: &mut StagedDesk,
    stations: &mut [Station],
) -> Served
    requires some { IsNamed gate.now.shape 0 }
    requires desk { desk_gate desk.old.desk ≡ gate.now }
    requires stations { All (λ t. station_gate t ≡ gate.now) stations.old }
    ensures desk { desk_gate desk.new.desk ≡ gate.now }
    ensures count { length stations.new ≡ length stations.old }
    ensures stations { All (λ t. station_gate t ≡ gate.now) stations.new }
{
    let (desk_work, station_work) = work;
    let (served, _) = join_mut(
        rt,
        &mut || desk_works(gate, desk_work, desk),
        &mut ||
            requires { IsSync R.row × IsNamed gate.now.shape 0 × All (λ t. station_gate t ≡ gate.now) stations.now }
            ensures { (length stations.exit.now ≡ length stations.entry.now) × All (λ t. station_gate t ≡ gate.entry.now) stations.exit.now }
        { stations_work(rt, gate, station_work, stations) },
    );
    served
}

// The Desk works beside the request.
fn desk_beside_request<R: Threads + Wait + Sync>(
    rt: &R,
    gate: &Gate<Global>,
    work: (DeskWork<'_>, RequestWork<'_>),
    desk: &mut StagedDesk,
    request: &mut Request,
)
    requires some { IsNamed gate.now.shape 0 }
    requires desk { desk_gate desk.old.desk ≡ gate.now }
    requires request { pass_gate request.old.pass ≡ gate.now }
    ensures desk { desk_gate desk.new.desk ≡ gate.now }
    ensures request { pass_gate request.new.pass ≡ gate.now }
{
    let (desk_work, request_work) = work;
    join_mut(
        rt,
        &mut || request_works(rt, gate, request_work, request),
        &mut || desk_works(gate, desk_work, desk),
    );
}

impl Stand {
    /// Each request works, in four threads.
    pub fn requests_work<R: Threads + Wait + Sync>(&mut self, rt: &R, work: RequestWork<'_>) {
        requests_work(rt, &self.gate, work, self.requests.as_mut_slice());
    }

    /// Each Station works, in eight threads.
    pub fn stations_work<R: Threads + Wait + Abort + Sync>(
        &mut self,
        rt: &R,
        work: StationWork<'_>,
    ) {
        assert!(rt; !self.requests.is_empty());
        self.gate.is_ticket(0);
        stations_work(rt, &self.gate, work, self.stations.as_mut_slice());
    }

    /// The requests work in four threads, and the Stations in eight others.
    pub fn both_work<R: Threads + Wait + Abort + Sync>(
        &mut self,
        rt: &R,
        work: (RequestWork<'_>, StationWork<'_>),
    ) {
        assert!(rt; !self.requests.is_empty());
        self.gate.is_ticket(0);
        both_work(
            rt,
            &self.gate,
            work,
            self.requests.as_mut_slice(),
            self.stations.as_mut_slice(),
        );
    }

    /// The Desk works in one thread, and the Stations in eight others.
    pub fn desk_beside_stations<R: Threads + Wait + Abort + Sync>(
        &mut self,
        rt: &R,
        work: (DeskWork<'_>, StationWork<'_>),
    ) -> Served {
        assert!(rt; !self.requests.is_empty());
        self.gate.is_ticket(0);
        desk_beside_stations(
            rt,
            &self.gate,
            work,
            &mut self.desk,
            self.stations.as_mut_slice(),
        )
    }

    /// The Desk works in one thread, and the first request in another.
    pub fn desk_beside_request<R: Threads + Wait + Abort + Sync>(
        &mut self,
        rt: &R,
        work: (DeskWork<'_>, RequestWork<'_>),
    ) {
        assert!(rt; !self.requests.is_empty());
        self.gate.is_ticket(0);
        desk_beside_request(rt, &self.gate, work, &mut self.desk, &mut self.requests[0]);
    }
}
