//! What follows from the order of a queue, over many calls.

ghost use Rattle.std.specs.Prelude.{List};
ghost use Rattle.uv_queue.specs.Turns.{Turn, IsInOrder};

/// However items come and leave, those that left and then those that stand are those that stood and then those that came.
pub fn first_in_first_out<X>()
    ensures { (xs : List X) (turns : List (Turn X)) → IsInOrder xs turns }
{}
