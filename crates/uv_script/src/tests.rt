//! Scripts and what they are read as.

use crate::numbers::number;
use crate::{DataCall, Deed, Form, Handle, Mode, Script, ScriptFault, Verb, parse};
use std::alloc::{AllocError, Global};
use std::process::Abort;
use std::test::Fail;
use uv_num::{Errno, Kind, SCRIPT_BYTES, SCRIPT_LINES};

/// The number of the line that a fault names, or 0.
fn fault(alloc: Global, bytes: &[u8]) -> u32 {
    match parse(alloc, bytes, Mode::Steps) {
        Err(ScriptFault::At(number)) => number,
        Err(ScriptFault::NoMemory) | Ok(_) => 0,
    }
}

/// Each text is a script where its number is 0, and else has its first fault on the line of that number.
fn expect_faults(rt: &impl Abort, alloc: Global, rows: &[(&str, u32)]) {
    for (text, number) in rows {
        assert_eq!(rt; fault(alloc, text.as_bytes()), *number, "of {text}");
    }
}

/// The script that a text is.
fn script(alloc: Global, text: &str) -> Result<Script, ScriptFault> {
    parse(alloc, text.as_bytes(), Mode::Steps)
}

/// A line so many times.
fn repeated(alloc: Global, line: &str, count: usize) -> Result<Vec<u8>, AllocError> {
    let mut bytes = Vec::new(alloc);
    for _turn in 0..count {
        bytes.extend_from_slice(line.as_bytes())?;
    }
    Ok(bytes)
}

#[test]
fn lines_keep_their_numbers_and_heads(rt: HostRuntime) -> Result<(), Fail> {
    let text = "# a comment\nc2 f3 open d1\n\nc8- f15 close\nc2+\ndrv- unplug d0\ndrv+\ndie c1\n";
    let want = [
        (
            2,
            Form::Plain {
                actor: 2,
                deed: Deed::Open { file: 3, device: 1 },
            },
        ),
        (
            4,
            Form::Minus {
                actor: 8,
                deed: Deed::Close { file: 15 },
            },
        ),
        (5, Form::Plus { actor: 2 }),
        (
            6,
            Form::Minus {
                actor: 9,
                deed: Deed::Unplug { device: 0 },
            },
        ),
        (7, Form::Plus { actor: 9 }),
        (8, Form::Die { client: 1 }),
    ];
    let script = script(rt.alloc(), text)?;
    assert_eq!(rt; script.len(), 6);
    for (place, (number, form)) in want.iter().enumerate() {
        let line = script.line(place as u32);
        assert_eq!(rt; line.number, *number);
        assert_eq!(rt; line.form, *form);
    }
    Ok(())
}

/// What a line has an actor do, if it has.
fn deed_in(form: &Form) -> Option<Deed> {
    match *form {
        Form::Plain { deed, .. } | Form::Minus { deed, .. } => Some(deed),
        Form::Plus { .. } | Form::Die { .. } | Form::Data { .. } => None,
    }
}

/// A call on file 5.
fn call(verb: Verb) -> Deed {
    Deed::Call { file: 5, verb }
}

fn destroy(kind: Kind, line: u32) -> Deed {
    call(Verb::Destroy {
        kind,
        object: Handle::Name(line),
    })
}

const CALLS: &str = "c1 f5 alloc_pd as p
c1 f5 create_channel as h
c1 f5 create_cq 1024 h as k
c1 f5 create_cq 0 -
c1 f5 create_srq p 128 as s
c1 f5 create_qp p k #7 s rc 1 2 as q
c1 f5 create_qp #0 #1 #2 - ud 18446744073709551615 0
c1 f5 create_ah p d1 as a
c1 f5 reg_mr p 0x10000 31 as m
c1 f5 alloc_mw p as w
c1 f5 bind_mw w m 1 2 3
c1 f5 bind_mw w - 0 0 0
c1 f5 get_async
c1 f5 dealloc_pd p
c1 f5 destroy_channel h
c1 f5 destroy_cq k
c1 f5 destroy_srq s
c1 f5 destroy_qp q
c1 f5 destroy_ah a
c1 f5 dereg_mr m
c1 f5 dealloc_mw w
c1 f5 destroy_cq p
";

#[test]
fn calls_have_their_operands(rt: HostRuntime) -> Result<(), Fail> {
    let name = |line: u32| Handle::Name(line);
    let want = [
        call(Verb::AllocPd),
        call(Verb::CreateChannel),
        call(Verb::CreateCq {
            depth: 1_024,
            channel: Some(name(2)),
        }),
        call(Verb::CreateCq {
            depth: 0,
            channel: None,
        }),
        call(Verb::CreateSrq {
            pd: name(1),
            depth: 128,
        }),
        call(Verb::CreateQp {
            pd: name(1),
            send_cq: name(3),
            recv_cq: Handle::Number(7),
            srq: Some(name(5)),
            service: 2,
            send_depth: 1,
            recv_depth: 2,
        }),
        call(Verb::CreateQp {
            pd: Handle::Number(0),
            send_cq: Handle::Number(1),
            recv_cq: Handle::Number(2),
            srq: None,
            service: 4,
            send_depth: 18_446_744_073_709_551_615,
            recv_depth: 0,
        }),
        call(Verb::CreateAh {
            pd: name(1),
            device: 1,
        }),
        call(Verb::RegMr {
            pd: name(1),
            length: 65_536,
            access: 31,
        }),
        call(Verb::AllocMw { pd: name(1) }),
        call(Verb::BindMw {
            mw: name(10),
            mr: Some(name(9)),
            offset: 1,
            length: 2,
            access: 3,
        }),
        call(Verb::BindMw {
            mw: name(10),
            mr: None,
            offset: 0,
            length: 0,
            access: 0,
        }),
        call(Verb::GetAsync),
        destroy(Kind::Pd, 1),
        destroy(Kind::Channel, 2),
        destroy(Kind::Cq, 3),
        destroy(Kind::Srq, 5),
        destroy(Kind::Qp, 6),
        destroy(Kind::Ah, 8),
        destroy(Kind::Mr, 9),
        destroy(Kind::Mw, 10),
        destroy(Kind::Cq, 1),
    ];
    let script = script(rt.alloc(), CALLS)?;
    assert_eq!(rt; script.len(), 22);
    for (place, want) in want.iter().enumerate() {
        assert_eq!(rt;
            deed_in(&script.line(place as u32).form),
            Some(*want),
            "at {place}"
        );
    }
    Ok(())
}

/// What the names of the rows of `DATA` stand for.
const OBJECTS: &str = "c1 f5 create_channel as h
c1 f5 create_cq 8 h as k
c1 f5 alloc_pd as p
c1 f5 reg_mr p 64 1 as m
die c8
";

/// Lines of the data path, after the five above.
const DATA: [(&str, u32); 26] = [
    ("c1 poll k 1", 0),
    ("c7 poll k 64", 0),
    ("c1 poll k 0x40", 0),
    ("c1 poll k 0", 6),
    ("c1 poll k 65", 6),
    ("c1 poll k 4294967297", 6),
    ("c1 poll k", 6),
    ("c1 poll k 1 1", 6),
    ("c1 poll k 1 as p", 6),
    ("c1 poll #0 1", 6),
    ("c1 poll - 1", 6),
    ("c1 poll h 1", 6),
    ("c1 poll p 1", 6),
    ("c1 poll q 1", 6),
    ("c1 f5 poll k 1", 6),
    ("c1- poll k 1", 6),
    ("c1+ poll k 1", 6),
    ("c8 poll k 1", 6),
    ("drv poll k 1", 6),
    ("c1 arm k all", 0),
    ("c1 arm k sol", 0),
    ("c1 arm k any", 6),
    ("c1 arm h all", 6),
    ("c1 event h", 0),
    ("c1 event k", 6),
    ("c1 event", 6),
];

#[test]
fn lines_of_the_data_path(rt: HostRuntime) -> Result<(), Fail> {
    for (line, number) in DATA.iter() {
        let mut text = Vec::from_slice(rt.alloc(), OBJECTS.as_bytes())?;
        text.extend_from_slice(line.as_bytes())?;
        assert_eq!(rt; fault(rt.alloc(), &text), *number, "of {line}");
    }
    let text =
        "c1 f5 create_channel as h\nc1 f5 create_cq 8 h as k\nc3 poll k 7\nc1 arm k sol\nc2 event h\n";
    let want = [
        (3, DataCall::Poll { cq: 2, count: 7 }),
        (
            1,
            DataCall::Arm {
                cq: 2,
                solicited: true,
            },
        ),
        (2, DataCall::Event { channel: 1 }),
    ];
    let script = script(rt.alloc(), text)?;
    assert_eq!(rt; script.len(), 5);
    for (place, (client, call)) in want.iter().enumerate() {
        match &script.line(place as u32 + 2).form {
            Form::Data {
                client: found,
                call: made,
            } => {
                assert_eq!(rt; *found, *client);
                assert_eq!(rt; *made, *call);
            }
            Form::Plain { .. } | Form::Minus { .. } | Form::Plus { .. } | Form::Die { .. } => {
                assert!(rt; false);
            }
        }
    }
    Ok(())
}

const LINES: [(&str, u32); 24] = [
    ("", 0),
    ("c1 f0 open d0\nc9 f0 open d0\n", 2),
    (
        "c1 f0 open d0\nc1 f0 alloc_pd as p\nc1 f0 alloc_pd as p\n",
        3,
    ),
    ("c1 f0 open d0\nx\ny\nc1 f0 alloc_pd", 2),
    ("# a comment\n\n \t\nx\n", 4),
    ("c1 f0 dealloc_pd p\nc1 f0 alloc_pd as p\n", 1),
    ("c1 f0 alloc_pd as p\nc1 f0 dealloc_pd q\n", 2),
    ("c1 f0 alloc_pd as p\nc1 f0 dealloc_pd p\n", 0),
    ("c1 f0 alloc_pd as as\nc1 f0 dealloc_pd as\n", 0),
    (
        "c1 f0 create_channel as as\nc1 f0 create_cq 8 as as k\nc1 f0 destroy_cq k\n",
        0,
    ),
    (" \tc1 \t f0\topen  d0\t \n", 0),
    ("c1 f0 open d0", 0),
    ("c1 f0 open d0\r\n", 0),
    ("c1 f0 open d0\r\r\n", 1),
    ("c1 f0 open d0\r", 1),
    ("c1 f0 open\rd0\n", 1),
    ("\r\n", 0),
    ("#\r\n", 0),
    ("#\r", 1),
    (" # x\n", 1),
    ("#\u{1f}\n", 1),
    ("# \u{20}~\t\n", 0),
    ("#\u{7f}\n", 1),
    ("#\u{80}\n", 1),
];

#[test]
fn a_fault_names_the_first_line_that_is_outside(rt: HostRuntime) {
    expect_faults(&rt, rt.alloc(), &LINES);
    assert_eq!(rt; fault(rt.alloc(), b"# \x80\n"), 1);
}

const HEADS: [(&str, u32); 46] = [
    ("c0 f0 open d0", 1),
    ("c1 f0 open d0", 0),
    ("c8 f0 open d0", 0),
    ("c9 f0 open d0", 1),
    ("c01 f0 open d0", 1),
    ("C1 f0 open d0", 1),
    ("c f0 open d0", 1),
    ("c1- f0 open d0", 0),
    ("c8- f0 open d0", 0),
    ("c0- f0 open d0", 1),
    ("c9- f0 open d0", 1),
    ("c1-- f0 open d0", 1),
    ("c1-", 1),
    ("-", 1),
    ("c1+", 0),
    ("c8+", 0),
    ("c0+", 1),
    ("c9+", 1),
    ("+", 1),
    ("c1+ f0 open d0", 1),
    ("c1+ c1+", 1),
    ("c1 +", 1),
    ("drv unplug d0", 0),
    ("drv unplug d1", 0),
    ("drv unplug d2", 1),
    ("drv unplug", 1),
    ("drv unplug d0 d1", 1),
    ("drv unplug d0 as p", 1),
    ("drv- unplug d1", 0),
    ("drv+", 0),
    ("drv+ unplug d0", 1),
    ("drv", 1),
    ("drv f0 close", 1),
    ("drv close", 1),
    ("c1 unplug d0", 1),
    ("c1 f0 unplug d0", 1),
    ("die c1", 0),
    ("die c8", 0),
    ("die c0", 1),
    ("die c9", 1),
    ("die drv", 1),
    ("die", 1),
    ("die c1 c2", 1),
    ("die- c1", 1),
    ("die+", 1),
    ("settle", 1),
];

const DEATHS: [(&str, u32); 8] = [
    ("die c1\ndie c1\n", 2),
    ("die c1\ndie c2\n", 0),
    ("die c1\nc1+\n", 2),
    ("die c1\nc1 f0 close\n", 2),
    ("die c1\nc1- f0 close\n", 2),
    ("die c1\nc2 f0 close\ndrv unplug d0\ndrv+\n", 0),
    ("die c1\ndie c2\nc2+\n", 3),
    ("c1 f0 alloc_pd as p\ndie c1\nc2 f0 dealloc_pd p\n", 0),
];

#[test]
fn heads_and_deaths(rt: HostRuntime) {
    expect_faults(&rt, rt.alloc(), &HEADS);
    expect_faults(&rt, rt.alloc(), &DEATHS);
}

const PLACES: [(&str, u32); 27] = [
    ("c1 f15 open d1", 0),
    ("c1 f16 open d0", 1),
    ("c1 f00 open d0", 1),
    ("c1 f0 open d2", 1),
    ("c1 f0 open", 1),
    ("c1 f0 open d0 d0", 1),
    ("c1 f0 open d0 as p", 1),
    ("c1 f0 close", 0),
    ("c1 f0 close f0", 1),
    ("c1 f0 close as p", 1),
    ("c1 f0", 1),
    ("c1", 1),
    ("c1 f0 alloc_pd as abcdefghijklmnop", 0),
    ("c1 f0 alloc_pd as abcdefghijklmnopq", 1),
    ("c1 f0 alloc_pd as a_9", 0),
    ("c1 f0 alloc_pd as _a", 1),
    ("c1 f0 alloc_pd as 9a", 1),
    ("c1 f0 alloc_pd as A", 1),
    ("c1 f0 alloc_pd as", 1),
    ("c1 f0 alloc_pd p", 1),
    ("c1 f0 alloc_pd as p q", 1),
    ("c1 f0 dealloc_pd", 1),
    ("c1 f0 dealloc_pd #0 #0", 1),
    ("c1 f0 dealloc_pd #0 as p", 1),
    ("c1 f0 dealloc_pd -", 1),
    ("c1 f0 query_qp #0", 1),
    ("c1 f0 modify_qp #0 err", 1),
];

const HANDLES: [(&str, u32); 11] = [
    ("c1 f0 destroy_ah #0", 0),
    ("c1 f0 destroy_ah #4294967295", 0),
    ("c1 f0 destroy_ah #4294967296", 1),
    ("c1 f0 destroy_ah #00", 1),
    ("c1 f0 destroy_ah #", 1),
    ("c1 f0 destroy_ah 0", 1),
    ("c1 f0 destroy_ah #0xfF", 0),
    ("c1 f0 destroy_ah #0x", 1),
    ("c1 f0 destroy_ah #0xg", 1),
    ("c1 f0 destroy_ah #0X1", 1),
    ("c1 f0 destroy_ah #0x00000000000000001", 1),
];

const OPERANDS: [(&str, u32); 41] = [
    ("c1 f0 create_channel #0", 1),
    ("c1 f0 create_channel as h", 0),
    ("c1 f0 create_cq 18446744073709551615 #0 as k", 0),
    ("c1 f0 create_cq 18446744073709551616 #0", 1),
    ("c1 f0 create_cq 8", 1),
    ("c1 f0 create_cq - 8", 1),
    ("c1 f0 create_cq 8 - -", 1),
    ("c1 f0 create_cq 8 - as -", 1),
    ("c1 f0 create_cq 8 as k", 1),
    ("c1 f0 create_srq #0 8 as s", 0),
    ("c1 f0 create_srq - 8", 1),
    ("c1 f0 create_srq #0 #8", 1),
    ("c1 f0 create_srq #0", 1),
    ("c1 f0 create_qp #0 #0 #0 #0 rc 1 1 as q", 0),
    ("c1 f0 create_qp #0 #0 #0 - ud 1 1", 0),
    ("c1 f0 create_qp - #0 #0 - ud 1 1", 1),
    ("c1 f0 create_qp #0 - #0 - ud 1 1", 1),
    ("c1 f0 create_qp #0 #0 - - ud 1 1", 1),
    ("c1 f0 create_qp #0 #0 #0 - uc 1 1", 1),
    ("c1 f0 create_qp #0 #0 #0 - 2 1 1", 1),
    ("c1 f0 create_qp #0 #0 #0 - rc 1", 1),
    ("c1 f0 create_qp #0 #0 #0 - rc 1 1 1", 1),
    ("c1 f0 create_qp #0 #0 #0 - rc 01 1", 1),
    ("c1 f0 create_qp #0 #0 #0 - rc 1 -1", 1),
    ("c1 f0 create_ah #0 d0 as a", 0),
    ("c1 f0 create_ah #0 d2", 1),
    ("c1 f0 create_ah #0 0", 1),
    ("c1 f0 create_ah - d0", 1),
    ("c1 f0 reg_mr #0 0 0 as m", 0),
    ("c1 f0 reg_mr #0 1", 1),
    ("c1 f0 reg_mr #0 1 1 1", 1),
    ("c1 f0 reg_mr #0 1 0x10000000000000000", 1),
    ("c1 f0 alloc_mw #0 as w", 0),
    ("c1 f0 alloc_mw", 1),
    ("c1 f0 bind_mw #0 #1 1 1 1", 0),
    ("c1 f0 bind_mw - #1 1 1 1", 1),
    ("c1 f0 bind_mw #0 - 1 1", 1),
    ("c1 f0 bind_mw #0 - 1 1 1 as w", 1),
    ("c1 f0 get_async", 0),
    ("c1 f0 get_async as e", 1),
    ("c1- f0 create_cq 8 - as k\nc1 f0 destroy_cq k\n", 0),
];

#[test]
fn operands_stand_in_their_ranges(rt: HostRuntime) {
    expect_faults(&rt, rt.alloc(), &PLACES);
    expect_faults(&rt, rt.alloc(), &HANDLES);
    expect_faults(&rt, rt.alloc(), &OPERANDS);
}

#[test]
fn scripts_have_so_many_lines_and_bytes(rt: HostRuntime) -> Result<(), Fail> {
    let most = repeated(rt.alloc(), "#\n", SCRIPT_LINES)?;
    assert_eq!(rt; fault(rt.alloc(), &most), 0);
    let over = repeated(rt.alloc(), "#\n", SCRIPT_LINES + 1)?;
    assert_eq!(rt; fault(rt.alloc(), &over), 20_001);
    let line = "c1 f0 dealloc_pd #0x0000000000000001                           \n";
    assert_eq!(rt; line.len(), 64);
    let long = repeated(rt.alloc(), line, 16_384)?;
    assert_eq!(rt; long.len(), SCRIPT_BYTES);
    assert_eq!(rt; fault(rt.alloc(), &long), 0);
    Ok(())
}

#[test]
fn numbers_are_below_two_to_the_64(rt: HostRuntime) {
    let rows = [
        ("0", Some(0)),
        ("10", Some(10)),
        ("18446744073709551615", Some(18_446_744_073_709_551_615)),
        ("18446744073709551616", None),
        ("36893488147419103233", None),
        ("0xffffffffffffffff", Some(18_446_744_073_709_551_615)),
        ("0xFf", Some(255)),
        ("0x00", Some(0)),
        ("0x", None),
        ("0x10000000000000000", None),
        ("00", None),
        ("01", None),
        ("", None),
        ("+1", None),
    ];
    for (digits, value) in rows.iter() {
        assert_eq!(rt; number(digits.as_bytes()), *value, "of {digits}");
    }
}

/// The deed of the only line, if it has one.
fn only_deed(alloc: Global, text: &str) -> Result<Option<Deed>, ScriptFault> {
    let script = script(alloc, text)?;
    if script.len() != 1 {
        return Ok(None);
    }
    Ok(deed_in(&script.line(0).form))
}

#[test]
fn raw_lines_say_requests_and_errnos(rt: HostRuntime) -> Result<(), Fail> {
    let domain = call(Verb::Destroy {
        kind: Kind::Pd,
        object: Handle::Number(0x0030_20ab),
    });
    let rows = [
        // Allocates a domain.
        (
            "c3 f5 raw 180001000100000000000000000000000000000000000000",
            call(Verb::AllocPd),
        ),
        // Destroys domain 0x3020ab, in either case.
        (
            "c3 f5 raw 2800010002000100000000000000000000000000000000000100080001000000ab20300000000000",
            domain,
        ),
        (
            "c3- f5 raw 2800010002000100000000000000000000000000000000000100080001000000Ab20300000000000",
            domain,
        ),
        // A completion queue of depth 1.
        (
            "c3 f5 raw 28000300010001000000000000000000000000000000000001000800010000000100000000000000",
            call(Verb::CreateCq {
                depth: 1,
                channel: None,
            }),
        ),
        // No command: too short.
        ("c3 f5 raw 00", Deed::Refused(Errno::Inval)),
        ("c3- f5 raw fF", Deed::Refused(Errno::Inval)),
        // A completion queue of depth 0: out of its range.
        (
            "c3 f5 raw 28000300010001000000000000000000000000000000000001000800010000000000000000000000",
            Deed::Refused(Errno::Inval),
        ),
        // Object 9.
        (
            "c3 f5 raw 180009000100000000000000000000000000000000000000",
            Deed::Refused(Errno::ProtoNoSupport),
        ),
    ];
    for (text, deed) in rows.iter() {
        assert_eq!(rt; only_deed(rt.alloc(), text)?, Some(*deed), "of {text}");
    }
    Ok(())
}

const RAW: [(&str, u32); 10] = [
    ("c1 f0 raw", 1),
    ("c1 f0 raw 0", 1),
    ("c1 f0 raw 000", 1),
    ("c1 f0 raw 0g", 1),
    ("c1 f0 raw 0x00", 1),
    ("c1 f0 raw 00 00", 1),
    ("c1 f0 raw 00 as p", 1),
    ("c1 f0 raw #00", 1),
    // Requests whose lines aren't built: a modify of a queue pair to the state ERR, and a query.
    (
        "c1 f0 raw 3800040003000200000000000000000000000000000000000100080001000000000000000000000002000800010000000600000000000000",
        1,
    ),
    (
        "c1 f0 raw 28000400040001000000000000000000000000000000000001000800010000000000000000000000",
        1,
    ),
];

#[test]
fn raw_lines_outside_the_language(rt: HostRuntime) -> Result<(), Fail> {
    expect_faults(&rt, rt.alloc(), &RAW);
    for (digits, number) in [(8_192, 0), (8_193, 1), (8_194, 1)] {
        let mut text = Vec::from_slice(rt.alloc(), b"c1 f0 raw ")?;
        text.extend_from_slice(&repeated(rt.alloc(), "a", digits)?)?;
        assert_eq!(rt; fault(rt.alloc(), &text), number, "of {digits}");
    }
    Ok(())
}
