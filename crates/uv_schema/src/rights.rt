//! The ranges of access rights.

ghost use Rattle.std.specs.Prelude.{◌≡◌};
ghost use Rattle.uv_num.specs.Access.{has_only, has_right, is_qp_access, is_region_access, is_window_access, lets_others_write};

use uv_num::{
    ACCESS_LOCAL_WRITE, ACCESS_REMOTE_ATOMIC, ACCESS_REMOTE_WRITE, QP_ACCESS, REGION_ACCESS,
    WINDOW_ACCESS,
};

/// Whether an access has this right.
pub fn has_right(right: u64, access: u64) -> bool
    ensures { result ≡ has_right right access }
{
    access & right == right
}

/// Whether an access has no rights but these.
pub fn has_only(rights: u64, access: u64) -> bool
    ensures { result ≡ has_only rights access }
{
    access & rights == access
}

/// Whether the other side may change the bytes.
pub fn lets_others_write(access: u64) -> bool
    ensures { result ≡ lets_others_write access }
{
    has_right(ACCESS_REMOTE_WRITE, access) || has_right(ACCESS_REMOTE_ATOMIC, access)
}

/// Whether a region can have this access.
pub fn is_region_access(access: u64) -> bool
    ensures { result ≡ is_region_access access }
{
    has_only(REGION_ACCESS, access)
        && (has_right(ACCESS_LOCAL_WRITE, access) || !lets_others_write(access))
}

/// Whether a window can have this access.
pub fn is_window_access(access: u64) -> bool
    ensures { result ≡ is_window_access access }
{
    has_only(WINDOW_ACCESS, access)
}

/// Whether a queue pair can have this access.
pub fn is_qp_access(access: u64) -> bool
    ensures { result ≡ is_qp_access access }
{
    has_only(QP_ACCESS, access)
}
