//! What is wrong with lines, told once each.

use super::*;
use std::test::Fail;

#[test]
fn the_first_line_outside_is_told(rt: HostRuntime) -> Result<(), Fail> {
    let rows = [
        ("c1 f0 dealloc_pd #00", 1, "#00", Wrong::LeadingZero),
        (
            "c1 f0 dealloc_pd #0x",
            1,
            "#0x",
            Wrong::NotA(Operand::Number),
        ),
        (
            "c1 f0 dealloc_pd #4294967296",
            1,
            "#4294967296",
            Wrong::HandleTooGreat,
        ),
        ("c1 f0 dealloc_pd p", 1, "p", Wrong::Undeclared),
        ("c1 f0 close\n\nc9 f0 close", 3, "c9", Wrong::Head),
        ("c1 f16 close", 1, "f16", Wrong::NotA(Operand::File)),
        ("c1 f0 close now", 1, "now", Wrong::More),
        ("c1 f0 create_cq", 1, "", Wrong::Missing(Operand::Number)),
        (
            "c1 f0 alloc_pd as p\nc1 f0 alloc_pd as p",
            2,
            "p",
            Wrong::Twice,
        ),
        ("die c1\nc1+", 2, "c1+", Wrong::Dead),
        ("c1 f0 query_qp #0", 1, "query_qp", Wrong::NotBuilt),
        ("c1 post_send q 1", 1, "post_send", Wrong::NotBuilt),
        (
            "c1 f0 create_channel as h\nc1 poll h 1",
            2,
            "h",
            Wrong::NotA(Operand::Object(Kind::Cq)),
        ),
        ("c1 event h", 1, "h", Wrong::Undeclared),
        (
            "c1 f0 create_cq 8 - as k\nc1 poll k 65",
            2,
            "65",
            Wrong::NotA(Operand::Count),
        ),
        ("c1- poll k 1", 1, "poll", Wrong::NotA(Operand::File)),
        ("settle", 1, "settle", Wrong::NotBuilt),
        ("drv close", 1, "close", Wrong::Unplug),
    ];
    for (script, number, word, wrong) in rows.iter() {
        let told = first_amiss(rt.alloc(), script.as_bytes())?;
        let amiss = Amiss {
            word: word.as_bytes(),
            wrong: *wrong,
        };
        let wanted = AmissLine {
            number: *number,
            amiss,
        };
        assert_eq!(rt; told, Some(wanted), "{script}");
    }
    let script = b"c1 f0 open d0\nc1 f0 alloc_pd as p\n";
    assert_eq!(rt; first_amiss(rt.alloc(), script)?, None);
    assert_eq!(rt; Wrong::Undeclared.text(), "isn't declared");
    Ok(())
}
