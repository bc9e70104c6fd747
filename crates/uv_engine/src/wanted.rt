//! Keys that an action needs.

ghost use Rattle.std.specs.Prelude.{◌≡◌, ◌≤◌, ◌<◌, ◌+◌, []};
ghost use Rattle.uv_engine.specs.Wanting.{and_key, is_among, keys_wanted};

use uv_num::LENT_REGIONS;

/// The keys of the regions that an action needs, all different. The first `count` keys count.
#[derive(Clone, Copy, Debug, PartialEq, Eq)]
pub struct Wants {
    /// How many there are, at most `LENT_REGIONS`.
    pub count: u32,
    /// The keys.
    pub keys: [u32; LENT_REGIONS],
}

/// No keys.
pub(crate) fn none() -> Wants
    ensures keys { keys_wanted result ≡ [] }
    ensures count { result.count ≡ 0 }
{
    Wants {
        count: 0,
        keys: [0; LENT_REGIONS],
    }
}

/// Whether a key is among them.
fn is_among(wants: Wants, key: u32) -> bool
    requires { wants.count ≤ 6 }
    ensures { result ≡ is_among (keys_wanted wants) key }
{
    wants.keys[..wants.count as usize]
        .iter()
        .any(|wanted| *wanted == key)
}

/// The keys with one more, which is among them once.
pub(crate) fn and_key(wants: Wants, key: u32) -> Wants
    requires { wants.count < 6 }
    ensures keys { keys_wanted result ≡ and_key (keys_wanted wants) key }
    ensures count { result.count ≤ wants.count + 1 }
{
    if is_among(wants, key) {
        return wants;
    }
    let mut keys = wants.keys;
    keys[wants.count as usize] = key;
    Wants {
        count: wants.count + 1,
        keys,
    }
}
