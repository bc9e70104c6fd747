//! What the calls of a link have to do with each other.

ghost use Rattle.std.specs.Prelude.{◌≡◌, ◌∷◌, List, Some};
ghost use Rattle.uv_queue.specs.Order.{oldest, without_oldest};

/// A frame that was popped and is put in front again leaves the link as it was.
pub fn popped_goes_back<X>()
    ensures { (frames : List X) (frame : X) → oldest frames ≡ Some frame → frame ∷ without_oldest frames ≡ frames }
{}
