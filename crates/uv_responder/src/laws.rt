//! Laws of the rules of requests.

ghost use Rattle.uv_responder.specs.Rules.{PacketHasRule, RuleTellsSyndrome};

/// A request meets the row of the rule that it doesn't meet first, and is carried out exactly where it meets all.
pub fn packet_has_rule()
    ensures { PacketHasRule }
{}

/// What is told of a request has the syndrome of the rule that it doesn't meet.
pub fn rule_tells_syndrome()
    ensures { RuleTellsSyndrome }
{}
