//! The rule by which a line is refused before its call enters: of command bytes, or of a range.

ghost use Rattle.std.specs.Prelude.{◌≡◌, List, IfOk, IfSome, option_map};
ghost use Rattle.std.specs.Result.{result_err};
ghost use Rattle.uv_run.specs.Asking.{request_by};
ghost use Rattle.uv_run.specs.declared.reply.Reply.{Reply};
ghost use Rattle.uv_schema.specs.Check.{checked};
ghost use Rattle.uv_schema.specs.RuleNames.{call_errno, command_errno, request_rule};
ghost use Rattle.uv_why.specs.Asked.{IsDeedRefusedBy, IsFormRefusedBy};

use std::alloc::{AllocError, Global};
use uv_num::{Errno, Request};
use uv_schema::{CallRule, CommandRule, command_rule, request_has_rule, request_rule};
use uv_script::{Deed, Form, Verb};

/// A request with the numbers of a verb that have ranges. No range looks at a handle.
fn ranged_request(verb: Verb) -> Request
    ensures { (replies : List Reply) → request_rule result ≡ request_rule (request_by replies verb) }
{
    match verb {
        Verb::AllocPd
        | Verb::CreateChannel
        | Verb::AllocMw { .. }
        | Verb::Destroy { .. }
        | Verb::GetAsync => Request::GetAsync,
        Verb::CreateCq { depth, .. } => Request::CreateCq {
            depth,
            channel: None,
        },
        Verb::CreateSrq { depth, .. } => Request::CreateSrq { pd: 0, depth },
        Verb::CreateQp {
            service,
            send_depth,
            recv_depth,
            ..
        } => Request::CreateQp {
            pd: 0,
            send_cq: 0,
            recv_cq: 0,
            srq: None,
            service,
            send_depth,
            recv_depth,
        },
        Verb::CreateAh { device, .. } => Request::CreateAh { pd: 0, device },
        Verb::RegMr { length, access, .. } => Request::RegMr {
            pd: 0,
            length,
            access,
        },
        Verb::BindMw {
            offset,
            length,
            access,
            ..
        } => Request::BindMw {
            mw: 0,
            mr: None,
            offset,
            length,
            access,
        },
    }
}

/// The rule of ranges that refuses a verb.
fn verb_rule(verb: Verb) -> Option<CallRule>
    ensures { (replies : List Reply) → option_map call_errno result ≡ result_err (checked (request_by replies verb)) }
{
    request_has_rule();
    request_rule(&ranged_request(verb))
}

/// The rule that refuses the last word of a line as command bytes.
fn bytes_rule(alloc: Global, words: &str) -> Result<Option<CommandRule>, AllocError> {
    let Some(word) = words.split_ascii_whitespace().last() else {
        return Ok(None);
    };
    match hex::decode(alloc, word.as_bytes()) {
        Ok(bytes) => command_rule(alloc, &bytes),
        Err(_) => Ok(None),
    }
}

/// A rule, if it refuses with this errno.
fn with_errno(rule: Option<CommandRule>, errno: Errno) -> Option<CommandRule>
    ensures { IfSome result (λ r. command_errno r ≡ errno) }
{
    match rule {
        None => None,
        Some(rule) => if rule.errno() == errno {
            Some(rule)
        } else {
            None
        },
    }
}

fn deed_rule(alloc: Global, deed: Deed, words: &str) -> Result<Option<CommandRule>, AllocError>
    ensures { IfOk result (λ told. IfSome told (IsDeedRefusedBy deed)) }
{
    match deed {
        Deed::Refused(errno) => Ok(with_errno(bytes_rule(alloc, words)?, errno)),
        Deed::Call { verb, .. } => match verb_rule(verb) {
            None => Ok(None),
            Some(rule) => Ok(Some(CommandRule::Call(rule))),
        },
        Deed::Open { .. } | Deed::Close { .. } | Deed::Unplug { .. } => Ok(None),
    }
}

/// The rule that refuses what a line with these words asks for, before a call enters, if one does.
pub fn asked_rule(
    alloc: Global,
    form: &Form,
    words: &str,
) -> Result<Option<CommandRule>, AllocError>
    ensures { IfOk result (λ told. IfSome told (IsFormRefusedBy form.now)) }
{
    match form {
        Form::Plain { deed, .. } | Form::Minus { deed, .. } => deed_rule(alloc, *deed, words),
        Form::Plus { .. } | Form::Die { .. } | Form::Data { .. } => Ok(None),
    }
}
