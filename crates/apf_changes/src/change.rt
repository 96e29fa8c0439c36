//! What a change asks for.

use apf_objects::Distinguisher;

/// A number that is asked for.
#[derive(Clone, Copy, Debug, PartialEq, Eq)]
pub enum Amount {
    /// This number.
    Exactly(u32),
    /// This many times what stands there.
    Times(u32),
    /// This much more than what stands there.
    Plus(u32),
}

/// A number of a level.
#[derive(Clone, Copy, Debug, PartialEq, Eq)]
pub enum LevelNumber {
    Shares,
    /// How many per cent of its nominal limit it lends at most.
    Lendable,
    /// How many per cent of its nominal limit it borrows at most.
    Borrowing,
    Queues,
    /// The queues dealt to one flow.
    Hand,
    /// The requests that may wait in one queue.
    Length,
}

/// What becomes of a request that does not fit.
#[derive(Clone, Copy, Debug, PartialEq, Eq)]
pub enum Response {
    Queue,
    Reject,
}

/// What is changed of a level.
#[derive(Clone, Copy, Debug, PartialEq, Eq)]
pub enum LevelChange {
    Number(LevelNumber, Amount),
    /// The level borrows as many seats as there are.
    BorrowsAll,
    Response(Response),
}

/// What is changed of a schema.
#[derive(Clone, Copy, Debug, PartialEq, Eq)]
pub enum SchemaChange {
    Precedence(Amount),
    By(Distinguisher),
}

/// What is changed of a cluster, of its server or of its requests.
#[derive(Clone, Copy, Debug, PartialEq, Eq)]
pub enum Change<'a> {
    /// The seats of the server.
    ServerSeats(Amount),
    /// The nominal limit of the level of this name, whatever its shares.
    LevelSeats(&'a str, Amount),
    /// How often each request of the user of this name comes.
    UserRate(&'a str, Amount),
    /// How often each request of the schema of this name comes.
    SchemaRate(&'a str, Amount),
    /// The level of this name.
    Level(&'a str, LevelChange),
    /// The schema of this name.
    Schema(&'a str, SchemaChange),
    /// The level of a schema: the schema's name, and the level's.
    SchemaLevel(&'a str, &'a str),
}
