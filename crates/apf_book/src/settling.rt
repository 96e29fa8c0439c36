//! Whether what requests take is settled.

ghost use Rattle.std.specs.Prelude.{◌≡◌};
ghost use Rattle.apf_book.specs.Life.{places_of};

/// Whether what a request takes is settled with its queue.
#[derive(Clone, Copy, Debug, PartialEq, Eq)]
pub enum Settling {
    /// A queue is charged the cost of each request that is dispatched from it, and that stays.
    Never,
    /// A queue is charged that cost, and, in place of it, what the request took, once that is told.
    Told,
}

impl Settling {
    // Of how many of these slots it is kept what a queue is charged.
    pub(crate) fn places(self, slots: u32) -> u32
        ensures { result ≡ places_of self slots }
    {
        match self {
            Settling::Never => 0,
            Settling::Told => slots,
        }
    }
}
