//! The law on the rules by name.

ghost use Rattle.uv_attr.specs.RuleNames.{BytesHaveRule};

/// There is a rule exactly where bytes are refused, and it tells what they are refused with.
pub fn bytes_have_rule()
    ensures { BytesHaveRule }
{}
