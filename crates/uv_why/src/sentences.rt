//! The rules in plain words, as `docs/RULES.md` has them.

use uv_attr::BytesRule;
use uv_machine::Rule;
use uv_region::AccessRule;
use uv_responder::PacketRule;
use uv_schema::CallRule;

/// What a rule of the machine asks for.
pub fn machine_sentence(rule: Rule) -> &'static str {
    match rule {
        Rule::OpenTwice => "A file is opened once.",
        Rule::OpenUnplugged => "A file is opened on a device that is plugged in.",
        Rule::OpenMemory => "There was no memory for an open that no rule refuses.",
        Rule::EnterUnopened => "Nothing is called on a file that was never opened.",
        Rule::EnterTorn => "Nothing enters on a file that is being torn down.",
        Rule::EnterClosed => "Nothing is called on a file that is closed.",
        Rule::EnterUnplugged =>
            "A create, and an act but for the taking of an event, enters where the file's device is plugged in.",
        Rule::EnterMemory => "There was no memory for a call that no rule refuses at its enter.",
        Rule::ReserveFull => "A file has 256 numbers, and a create takes one that is free.",
        Rule::LookMissing => "What a call looks at stands under its number.",
        Rule::LookKind => "What a call looks at is of the kind that is asked for.",
        Rule::LookUnplugged => "A call looks at objects while the file's device is plugged in.",
        Rule::LookHeld => "What a call looks at no call holds exclusively.",
        Rule::MakeIds => "There are 2^32 - 1 ids, each given once.",
        Rule::MakeCells => "A new object gets a cell of its kind that is home.",
        Rule::LockMissing => "What is destroyed stands under its number.",
        Rule::LockKind => "What is destroyed is of the kind that is asked for.",
        Rule::LockHeld => "What is destroyed no other call holds, exclusively or not.",
        Rule::CheckUsed => "What is destroyed nothing uses.",
        Rule::ModifyState => "A queue pair is told to go to a state that there is.",
        Rule::ModifyTable =>
            "A queue pair moves by the table: there is such a move, with all attributes that it needs and none that it may not have.",
        Rule::BindMissing =>
            "A bind has a window and a region. No legal history leads to one that hasn't.",
        Rule::BindDomain => "A window is bound to a region of its own domain.",
        Rule::BindRight => "A window is bound to a region that allows binding.",
        Rule::BindWrite => "A window gives remote writes where its region has local ones.",
        Rule::BindEmpty => "A window is bound to one byte at least.",
        Rule::BindRange => "The range of a window is within its region.",
        Rule::UnbindRange => "A bind without a region gives no range and no right.",
        Rule::EventGone => "A dissociated file has one event, and no other comes.",
        Rule::EventNone => "An event is taken that waits.",
    }
}

/// What a rule of command bytes asks for.
pub fn bytes_sentence(rule: BytesRule) -> &'static str {
    match rule {
        BytesRule::Header => "A command has the bytes of a header at least.",
        BytesRule::Length =>
            "The length that a command states is that of a header with so many attributes.",
        BytesRule::Count => "The length that a command states is that of its bytes.",
        BytesRule::Reserved => "The reserved fields of a header are 0.",
        BytesRule::Attrs => "A command has 32 attributes at most.",
        BytesRule::Flags => "An attribute has no flags but MANDATORY and VALID_OUTPUT.",
        BytesRule::Data => "The attr_data of an attribute is 0.",
        BytesRule::Twice => "An attribute stands once.",
    }
}

/// What a rule of the method table or of ranges asks for.
pub fn call_sentence(rule: CallRule) -> &'static str {
    match rule {
        CallRule::MethodUnknown => "The object and the method are a row of the method table.",
        CallRule::AttrUnknown => "A mandatory attribute is one that the method has.",
        CallRule::AttrHandle => "A handle that the method has comes in 8 bytes.",
        CallRule::AttrLength => "Another number that the method has comes in 8 bytes.",
        CallRule::AttrMissing => "Each attribute that the method needs is given.",
        CallRule::RangeHandle => "A handle has 32 bits.",
        CallRule::RangeCq => "A completion queue holds 1 to 1,024 completions.",
        CallRule::RangeService => "A queue pair is of service 2, which is RC, or 4, which is UD.",
        CallRule::RangeSends => "1 to 128 sends are posted at once.",
        CallRule::RangeReceives => "1 to 128 receives are posted at once.",
        CallRule::RangeState => "A queue pair is told to go to a state that there is.",
        CallRule::RangeModify => "Each attribute of a modify is in its range.",
        CallRule::RangeSrq => "A shared receive queue holds 1 to 128 receives.",
        CallRule::RangeDevice => "An address handle leads to device 0 or 1.",
        CallRule::RangeLength => "A region has 1 to 65,536 bytes.",
        CallRule::RangeRights => "A region has no rights but the five that there are.",
        CallRule::RangeWrite =>
            "A region that the other side may write or change lets its owner write.",
        CallRule::RangeWindow =>
            "A window has no rights but those to read and to write from the other side.",
    }
}

/// What a rule of an access by a key asks for.
pub fn access_sentence(rule: AccessRule) -> &'static str {
    match rule {
        AccessRule::Unknown => "A region is live under the key, or a window that is bound to one.",
        AccessRule::Bounds => "The access lies in the region.",
        AccessRule::Right =>
            "The region gives the right to it; of one through a window this isn't asked.",
        AccessRule::Domain => "The region is of the queue pair's protection domain.",
        AccessRule::Window =>
            "The window has the access in its range, gives the right to it, and is of the protection domain.",
    }
}

/// What a rule of a request of a connection asks for.
pub fn packet_sentence(rule: PacketRule) -> &'static str {
    match rule {
        PacketRule::Duplicate => "A send or a write isn't one that came before.",
        PacketRule::Reread =>
            "A read isn't one that came before and can be answered again. Such a one is.",
        PacketRule::Stale => "A read isn't one that came before.",
        PacketRule::Ahead => "No packet is missing before it.",
        PacketRule::Busy => "No read is still being answered.",
        PacketRule::Invalidate => "It invalidates no key.",
        PacketRule::Place =>
            "It begins a message where none is in progress, or goes on with the one that is.",
        PacketRule::Payload => "Its payload is as long as its place in the message wants.",
        PacketRule::Length =>
            "The message is as long as its first packet tells, and no longer than a work.",
        PacketRule::Granted => "The queue pair gives the access.",
        PacketRule::Receive => "A receive waits, where it takes one.",
        PacketRule::Range => "The key of the range is live, and the range lets it act.",
        PacketRule::Room => "Its receive is as long as the message.",
        PacketRule::Parts => "The regions of its receive are live, and let it be filled.",
    }
}
