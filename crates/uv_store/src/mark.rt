//! What is kept beside an object: the lock word and the count of its users.

ghost use Rattle.std.specs.Prelude.{◌≡◌};
ghost use Rattle.uv_store.specs.Marks.{word_read, word_freed, word_locked, word_unlocked, more_users, fewer_users};

use uv_num::Changes;
use uv_word::{EXCLUSIVE, FREE, put_exclusive, put_read, try_exclusive, try_read};

/// The most read holds that a word counts: more than all actors together have on one object.
pub(crate) const MOST_READS_HELD: i32 = 64;

/// The most users that an object counts: more than all objects together can be.
pub(crate) const MOST_USERS: u32 = 65_536;

/// What is kept beside an object.
#[derive(Clone, Copy, Debug, PartialEq)]
pub struct Mark {
    /// The lock word, which stands for the holds that calls have on the object (`usecnt` of `struct ib_uobject`).
    pub word: i32,
    /// How often objects use it; one that uses it twice counts twice (`usecnt` of `struct ib_pd` and others).
    pub users: u32,
}

/// What becomes of a mark.
#[derive(Clone, Copy, Debug)]
pub(crate) enum MarkChange {
    /// One more call looks at the object.
    Reads,
    /// One look is let go.
    Frees,
    /// A call holds it alone.
    Locks,
    /// No call holds it alone any more.
    Unlocks,
    /// One more use of it.
    GainsUser,
    /// One use less.
    LosesUser,
}

fn read(word: &mut i32)
    ensures { word.new ≡ word_read word.old }
{
    if *word >= FREE && *word < MOST_READS_HELD {
        let _ = try_read(word);
    }
}

fn free(word: &mut i32)
    ensures { word.new ≡ word_freed word.old }
{
    if *word > FREE {
        put_read(word);
    }
}

fn lock(word: &mut i32)
    ensures { word.new ≡ word_locked word.old }
{
    let _ = try_exclusive(word);
}

fn unlock(word: &mut i32)
    ensures { word.new ≡ word_unlocked word.old }
{
    if *word == EXCLUSIVE {
        put_exclusive(word);
    }
}

fn gain(users: &mut u32)
    ensures { users.new ≡ more_users users.old }
{
    if *users < MOST_USERS {
        *users += 1;
    }
}

fn lose(users: &mut u32)
    ensures { users.new ≡ fewer_users users.old }
{
    if *users > 0 {
        *users -= 1;
    }
}

impl Changes<Mark> for MarkChange {
    ghost use Rattle.uv_store.specs.Marks.{mark_changed};

    ghost changed = { mark_changed };

    fn change(self, mark: &mut Mark) {
        match self {
            MarkChange::Reads => read(&mut mark.word),
            MarkChange::Frees => free(&mut mark.word),
            MarkChange::Locks => lock(&mut mark.word),
            MarkChange::Unlocks => unlock(&mut mark.word),
            MarkChange::GainsUser => gain(&mut mark.users),
            MarkChange::LosesUser => lose(&mut mark.users),
        }
    }
}
