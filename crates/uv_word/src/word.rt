//! The calls that change a lock word: the two ways of `uverbs_try_lock_object` and the two of `rdma_lookup_put_uobject`
//! (`rdma_core.c`). There the word is `atomic_t usecnt` of a `struct ib_uobject`; here it is a plain number, which its
//! caller has to itself.

ghost use Rattle.std.specs.Prelude.{◌≡◌, ◌↔◌, ◌^◌, ◌-◌, ◌+ℤ◌, ◌<ℤ◌, pos, true, false, if◌then◌else◌};
ghost use Rattle.uv_word.specs.Holds.{Tries, Gives};
ghost use Rattle.uv_word.specs.Holds.Hold.{Read, Exclusive};

/// The word of an object that nothing holds: what `rdma_alloc_commit_uobject` of `rdma_core.c` sets it to.
pub const FREE: i32 = 0;

/// The word of an object that one call holds alone: what `alloc_uobj` of `rdma_core.c` sets it to, so that nobody else holds
/// a new object before its commit.
pub const EXCLUSIVE: i32 = -1;

/// Takes a read hold, unless the object is held alone (`uverbs_try_lock_object` with `UVERBS_LOOKUP_READ`). False means
/// that the hold wasn't taken, which callers answer by EBUSY. `put_read` gives it back.
pub fn try_read(word: &mut i32) -> bool
    requires { word.old <ℤ pos (2 ^ 31 - 1) }
    ensures refused { (result ≡ false) ↔ (word.old ≡ EXCLUSIVE) }
    ensures word { word.new ≡ (if result then word.old +ℤ pos 1 else word.old) }
    ensures holds { Tries Read word.old word.new result }
{
    if *word == EXCLUSIVE {
        return false;
    }
    *word += 1;
    true
}

/// Takes the exclusive hold, if the object isn't held at all (`uverbs_try_lock_object` with `UVERBS_LOOKUP_WRITE`). False
/// means that it wasn't taken, which callers answer by EBUSY. `put_exclusive` gives it back.
pub fn try_exclusive(word: &mut i32) -> bool
    ensures taken { (result ≡ true) ↔ (word.old ≡ FREE) }
    ensures word { word.new ≡ (if result then EXCLUSIVE else word.old) }
    ensures holds { Tries Exclusive word.old word.new result }
{
    if *word != FREE {
        return false;
    }
    *word = EXCLUSIVE;
    true
}

/// Gives back a read hold that `try_read` took (`rdma_lookup_put_uobject` with `UVERBS_LOOKUP_READ`).
pub fn put_read(word: &mut i32)
    requires { FREE <ℤ word.old }
    ensures word { word.new +ℤ pos 1 ≡ word.old }
    ensures holds { Gives Read word.old word.new }
{
    *word -= 1;
}

/// Gives back the exclusive hold that `try_exclusive` took (`rdma_lookup_put_uobject` with `UVERBS_LOOKUP_WRITE`).
pub fn put_exclusive(word: &mut i32)
    requires { word.old ≡ EXCLUSIVE }
    ensures word { word.new ≡ FREE }
    ensures holds { Gives Exclusive word.old word.new }
{
    *word = FREE;
}

#[cfg(test)]
mod tests {
    use super::*;
    use std::test::Fail;

    #[test]
    fn readers_share_and_a_writer_is_alone(rt: HostRuntime) -> Result<(), Fail> {
        let mut word = FREE;
        assert!(rt; try_read(&mut word));
        assert!(rt; try_read(&mut word));
        assert_eq!(rt; word, 2);
        assert!(rt; !try_exclusive(&mut word));
        assert_eq!(rt; word, 2);
        put_read(&mut word);
        put_read(&mut word);
        assert!(rt; try_exclusive(&mut word));
        assert_eq!(rt; word, -1);
        assert!(rt; !try_read(&mut word));
        put_exclusive(&mut word);
        assert_eq!(rt; word, 0);
        Ok(())
    }
}
