//! The laws of calls, each the contract of a function that does nothing.

ghost use Rattle.uv_num.specs.declared.request.Request.{Request};
ghost use Rattle.uv_schema.specs.Calls.{HandlesFit, ReadsBack};

/// The call that a request makes is read as that request where its numbers are in their ranges, and else is refused
/// with EINVAL.
pub fn request_is_read_back()
    ensures { (request : Request) → HandlesFit request → ReadsBack request }
{}
