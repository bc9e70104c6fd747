//! What the tables say of each other.

ghost use Rattle.std.specs.Prelude.{◌≡◌, Some};
ghost use Rattle.uv_wr.specs.declared.completion.Status.{Status};
ghost use Rattle.uv_wr.specs.Statuses.{status_number, status_of};

/// The number of a status is read as that status again, so no two have the same.
pub fn status_is_read_back()
    ensures { (status : Status) → status_of (status_number status) ≡ Some status }
{}
