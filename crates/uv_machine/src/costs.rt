//! What a call costs whoever stores the history.

ghost use Rattle.std.specs.Prelude.{◌≡◌, Some};
ghost use Rattle.uv_machine.specs.Plans.{entered};
ghost use Rattle.uv_machine.specs.Accounts.{call_owes};

use uv_num::{Request, Role};

/// How many entries a call can cause after its enter: its steps, and what becomes of the object that it makes.
pub fn owed_by(request: Request) -> usize
    ensures { result ≡ call_owes (Some (entered 0 request)) }
{
    let looks = request.looks().len();
    match request.role() {
        Role::Creates(_) => 2 * looks + 6,
        Role::Destroys(_) => 4,
        Role::Acts(_) => 2 * looks + 2,
    }
}
