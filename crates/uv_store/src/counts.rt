//! Counts by file.

ghost use Rattle.std.specs.Prelude.{◌≡◌, nat_lt, length};
ghost use Rattle.uv_num.specs.declared.limits.TheConstants.{FILES};
ghost use Rattle.uv_num.specs.Place.{at_place};
ghost use Rattle.uv_store.specs.Counts.{count_at, counted_if_live, recounted, uncounted_if_doomed};

use uv_machine::Object;
use uv_num::{Changes, FILES, change_at};

/// The most that is counted: more than there are objects.
const MOST_COUNT: u32 = 65_536;

/// What becomes of a count.
#[derive(Clone, Copy, Debug)]
pub(crate) enum CountChange {
    OneMore,
    OneLess,
}

impl Changes<u32> for CountChange {
    ghost use Rattle.uv_store.specs.Counts.{recounted};

    ghost changed = { recounted };

    fn change(self, count: &mut u32) {
        match self {
            CountChange::OneMore => {
                if *count < MOST_COUNT {
                    *count += 1;
                }
            }
            CountChange::OneLess => {
                if *count > 0 {
                    *count -= 1;
                }
            }
        }
    }
}

fn count_of(counts: &[u32; FILES], file: u32) -> u32
    ensures { result ≡ count_at counts.now file }
{
    match counts.get(file as usize) {
        None => 0,
        Some(count) => *count,
    }
}

/// Whether anything is counted in a file.
pub(crate) fn has_count(counts: &[u32; FILES], file: u32) -> bool
    ensures { result ≡ nat_lt 0 (count_at counts.now file) }
{
    0 < count_of(counts, file)
}

/// One more or one less in a file.
pub(crate) fn recount(counts: &mut [u32; FILES], file: u32, change: CountChange)
    ensures counts { counts.new ≡ at_place counts.old file (recounted change) }
    ensures size { length counts.old ≡ FILES }
{
    change_at(counts, file as usize, change);
}

/// One more in the file of an object that is live.
pub(crate) fn count_if_live(counts: &mut [u32; FILES], object: Option<Object>)
    ensures counts { counts.new ≡ counted_if_live object counts.old }
    ensures size { length counts.old ≡ FILES }
{
    match object {
        None => {}
        Some(x) => {
            if x.phase.is_live() {
                recount(counts, x.file, CountChange::OneMore);
            }
        }
    }
}

/// One less in the file of an object that is doomed.
pub(crate) fn uncount_if_doomed(counts: &mut [u32; FILES], x: Object)
    ensures counts { counts.new ≡ uncounted_if_doomed x counts.old }
    ensures size { length counts.old ≡ FILES }
{
    if x.phase.is_doomed() {
        recount(counts, x.file, CountChange::OneLess);
    }
}
