//! Laws of what callers see. A call of one does nothing when it runs.

ghost use Rattle.uv_guard.specs.Laws.{FreshLaws};

/// The seats that `Guard::new` makes may enter each cell and may be given back as they are, and its deeds are at home.
pub fn fresh_laws<T>()
    ensures { FreshLaws T }
{}
