//! Laws of queue pairs.

ghost use Rattle.uv_qp.specs.Laws.{ListsAreOrdered, WorksWerePosted, PairGoesOnFromItself, PairGoesOnInTurn, MovesGoOn, PostsGoOn, TurnsGoOn, TurnsGoOnInTurn, ResetBeginsAnew, ToldIsInRange, PiecesAreFew};

/// What a queue pair tells of its works is in order at each moment.
pub fn lists_are_ordered()
    ensures { ListsAreOrdered }
{}

/// The works that wait are among those that were posted.
pub fn works_were_posted()
    ensures { WorksWerePosted }
{}

/// A queue pair goes on from itself.
pub fn goes_on_from_itself()
    ensures { PairGoesOnFromItself }
{}

/// A queue pair goes on from each that those go on from which it goes on from.
pub fn goes_on_in_turn()
    ensures { PairGoesOnInTurn }
{}

/// A queue pair goes on by each move but that to RESET.
pub fn moves_go_on()
    ensures { MovesGoOn }
{}

/// A queue pair goes on by posts, each of which adds its one work to the list of its queue.
pub fn posts_go_on()
    ensures { PostsGoOn }
{}

/// A queue pair goes on by all that turns write, with the completions that they tell.
pub fn turns_go_on()
    ensures { TurnsGoOn }
{}

/// What goes on by writes of one after another goes on by all of them, with all completions.
pub fn turns_go_on_in_turn()
    ensures { TurnsGoOnInTurn }
{}

/// After a move to RESET nothing was posted.
pub fn reset_begins_anew()
    ensures { ResetBeginsAnew }
{}

/// The path MTU and the peer's number are in their ranges.
pub fn told_is_in_range()
    ensures { ToldIsInRange }
{}

/// The pieces of so many bytes have no more.
pub fn pieces_are_few()
    ensures { PiecesAreFew }
{}
