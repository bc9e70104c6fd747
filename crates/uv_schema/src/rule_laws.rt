//! Laws on the rules by name: there is one exactly where there is a refusal, and its errno is that of the refusal.

ghost use Rattle.uv_schema.specs.RuleNames.{RequestHasRule, CallHasRule, CommandHasRule};

use uv_attr::bytes_have_rule;

/// The rule of a request in `check`.
pub fn request_has_rule()
    ensures { RequestHasRule }
{}

/// The rule of a call in `request_of`.
pub fn call_has_rule()
    ensures { CallHasRule }
{}

/// The rule of command bytes in `command`.
pub fn command_has_rule()
    ensures { CommandHasRule }
{
    bytes_have_rule();
}
