//! What every schedule keeps.

ghost use Rattle.std.specs.Prelude.{ℕ, List};
ghost use Rattle.apf_model.specs.declared.moves.Move.{Move};
ghost use Rattle.apf_model.specs.World.{Opening, World};
ghost use Rattle.apf_model.specs.Schedule.{IsSchedule};
ghost use Rattle.apf_model.specs.Safety.{IsSafe, AreSums};

/// Every schedule is safe: of any steps, by any actors in any order, each allowed where it comes.
///
/// It runs no code: the contract is the law.
pub fn every_schedule_is_safe()
    ensures { (o : Opening) (schedule : List Move) → IsSchedule o schedule → IsSafe o schedule }
{}

/// The seats and the waiters of every world change with a request's stage by its own part alone.
///
/// It runs no code: the contract is the law.
pub fn every_world_adds_up()
    ensures { (widths : List ℕ) (w : World) → AreSums widths w }
{}
