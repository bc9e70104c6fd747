//! What is told of an object that is left or goes.

ghost use Rattle.std.specs.Prelude.{◌≡◌, ◌++◌, [], ◌∷◌, IfOk, OnOk, map, filter};
ghost use Rattle.uv_model.specs.Standing.{left_of, is_left};

use std::alloc::{AllocError, Global};
use uv_machine::Object;
use uv_num::{Kind, List};

/// An object that stands or was released, by its file, its kind and its handle.
#[derive(Clone, Copy, Debug, PartialEq, Eq)]
pub struct Left {
    /// The file's number, 0 to 15.
    pub file: u32,
    /// The object's kind.
    pub kind: Kind,
    /// The object's number in the file's handle table, 0 to 255.
    pub handle: u32,
}

impl Left {
    /// What is told of an object.
    pub fn of(x: Object) -> Left
        ensures { result ≡ left_of x }
    {
        Left {
            file: x.file,
            kind: x.kind,
            handle: x.handle,
        }
    }
}

/// The objects among these that are no husks, in their order. Its only error is want of memory.
pub fn left_in(alloc: Global, objects: &[Object]) -> Result<List<Left>, AllocError>
    ensures { IfOk result (λ l. l ≡ map left_of (filter is_left objects.now)) }
{
    let mut left = List::new(alloc);
    for x in objects {
        put_left(&mut left, *x)?;
    }
    Ok(left)
}

/// Puts an object behind the others unless it is a husk.
fn put_left(left: &mut List<Left>, x: Object) -> Result<(), AllocError>
    ensures { OnOk result (left.new ≡ left.old ++ map left_of (filter is_left (x ∷ []))) }
{
    if x.phase.is_husk() {
        Ok(())
    } else {
        left.push(Left::of(x))
    }
}
