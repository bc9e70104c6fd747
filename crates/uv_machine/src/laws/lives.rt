//! Laws on the lives of objects.

ghost use Rattle.uv_machine.specs.Laws.{ReleasedAtMostOnce, UsersFirst, ReleasedOnce, DestroyAnswers};

/// No object is released twice.
pub fn released_at_most_once()
    ensures { ReleasedAtMostOnce }
{}

/// An object that is released has no users.
pub fn users_first()
    ensures { UsersFirst }
{}

/// When a teardown ends, each object that was made for its file was released by one entry.
pub fn released_once()
    ensures { ReleasedOnce }
{}

/// A destroy that is refused neither ENOENT nor EINVAL answers EBUSY exactly where another call held the
/// object at its Lock or another object used it at its Check, and else Ok.
pub fn destroy_answers()
    ensures { DestroyAnswers }
{}
