//! What was seen of packets and completions, as text.

use std::alloc::{AllocError, Global};
use std::mem;
use uv_cq::Ring;
use uv_link::Frame;
use uv_num::CQ_DEPTH;
use uv_packet::{Opcode, Packet};
use uv_wr::Completion;

/// Packets in the order in which they were seen, each as `OPCODE:BYTES` with an `a` where it asks for an acknowledge and an `s`
/// where it is solicited, an acknowledge as all its bytes. Packets that look alike are told once, with their number.
#[derive(Drop)]
pub struct Trail {
    alloc: Global,
    text: String,
    last: String,
    times: u32,
}

fn packet_text(alloc: Global, frame: &Frame, packet: &Packet) -> Result<String, AllocError> {
    if Opcode::from_number(packet.opcode) == Some(Opcode::Acknowledge) {
        return hex::encode(alloc, frame.bytes.as_slice());
    }
    let ack = if packet.ack { "a" } else { "" };
    let solicited = if packet.solicited { "s" } else { "" };
    format!(in alloc;
        "{:02x}:{}{ack}{solicited}",
        packet.opcode,
        packet.payload.len()
    )
}

/// Puts a word after those of a text.
pub fn put_word(text: &mut String, word: &str) -> Result<(), AllocError> {
    if !text.is_empty() {
        text.push_str(" ")?;
    }
    text.push_str(word)
}

/// Puts a part after those of a text, with a stroke before it.
pub fn put_part(text: &mut String, part: &str) -> Result<(), AllocError> {
    put_word(text, "/")?;
    put_word(text, part)
}

/// A text, or `-` where it is empty.
pub fn or_dash(text: &str) -> &str {
    if text.is_empty() { "-" } else { text }
}

impl Trail {
    pub fn new(alloc: Global) -> Trail {
        Trail {
            alloc,
            text: String::new(alloc),
            last: String::new(alloc),
            times: 0,
        }
    }

    /// Puts the packets that looked alike last at the end of the text.
    fn flush(&mut self) -> Result<(), AllocError> {
        if self.times == 0 {
            return Ok(());
        }
        let alloc = self.alloc;
        let times = self.times;
        let last = mem::replace(&mut self.last, String::new(alloc));
        self.times = 0;
        if times == 1 {
            put_word(&mut self.text, last.as_str())
        } else {
            let word = format!(in alloc; "{last}*{times}")?;
            put_word(&mut self.text, word.as_str())
        }
    }

    pub fn see(&mut self, frame: &Frame, packet: &Packet) -> Result<(), AllocError> {
        let word = packet_text(self.alloc, frame, packet)?;
        if self.times > 0 && word.as_str() == self.last.as_str() {
            self.times = self.times.saturating_add(1);
            return Ok(());
        }
        self.flush()?;
        self.last = word;
        self.times = 1;
        Ok(())
    }

    /// The text of all that was seen.
    pub fn end(&mut self) -> Result<&str, AllocError> {
        self.flush()?;
        Ok(or_dash(self.text.as_str()))
    }
}

fn completion_text(alloc: Global, completion: Completion) -> Result<String, AllocError> {
    let Completion {
        id,
        status,
        what,
        length,
        imm,
        qpn: _,
    } = completion;
    let (status, what) = (status.name(), what.name());
    match imm {
        None => format!(in alloc; "{id}:{status}:{what}:{length}"),
        Some(imm) => format!(in alloc; "{id}:{status}:{what}:{length}:{imm:08x}"),
    }
}

/// Polls all completions of a ring, and tells them.
pub fn ends_text(alloc: Global, ring: &mut Ring) -> Result<String, AllocError> {
    let mut text = String::new(alloc);
    for _ in 0..CQ_DEPTH {
        match ring.poll() {
            None => break,
            Some(completion) => {
                let word = completion_text(alloc, completion)?;
                put_word(&mut text, word.as_str())?;
            }
        }
    }
    if text.is_empty() {
        text.push_str("-")?;
    }
    Ok(text)
}
