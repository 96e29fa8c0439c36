//! What a request took, by how long it ran.

ghost use Rattle.std.specs.Prelude.{◌≡◌, ◌≤◌};
ghost use Rattle.apf_queue.specs.View.{max_charge};
ghost use Rattle.apf_line.specs.SeatTime.{seat_time_of};

/// What a request of this width took that ran this many microseconds, in microseconds of a seat: 1 to 2^46.
pub fn seat_time(width: u32, micros: u64) -> u64
    ensures value { result ≡ seat_time_of width micros }
    ensures low { result ≤ max_charge }
{
    let taken = u128::from(width) * u128::from(micros);
    taken.clamp(1, 1 << 46) as u64
}
