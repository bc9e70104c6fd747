//! Actions on several pieces, one after another. All their memory is taken before the first is made.

ghost use Rattle.std.specs.Prelude.{◌≡◌, ◌<◌, ◌≤◌, ◌+◌, ◌++◌, length, true, false, IfOk, OnOk, OnErr};
ghost use Rattle.uv_num.specs.declared.limits.TheConstants.{WORK_PARTS};
ghost use Rattle.uv_region.specs.Actions.{is_read};
ghost use Rattle.uv_region.specs.Lent.{lent_after, lent_bytes, MayAct, StaysKnown};
ghost use Rattle.uv_region.specs.Several.{all_have_bytes, gathered, lent_allows_all, lent_read, lent_written, pieces_length, piece_reading, with_rooms_for, writes_of, piece_writing, MayReadAll, MayWriteAll};

use crate::action::Access;
use crate::bytes::{action_bytes, blank_bytes};
use crate::piece::Piece;
use crate::regions::Regions;
use std::alloc::{AllocError, Global};
use std::marker::Model;
use uv_num::{Bytes, List};

/// A piece of a region, and as many bytes, which are to be written there.
#[derive(Debug, Drop)]
pub struct PieceWrite {
    piece: Piece,
    bytes: Bytes,
}

impl Model for PieceWrite {
    ghost use Rattle.uv_region.specs.Several.{PlainWrite, IsWrite};

    ghost Value = { PlainWrite };

    ghost view = { λ w. record { piece = w.piece; bytes = w.bytes.bytes } };

    ghost invariant = { λ w. IsWrite w.piece w.bytes.bytes };
}

impl PieceWrite {
    /// Makes it.
    fn make(self, kind: Access, qp: u32, domain: u32, regions: &mut Regions)
        requires writes { is_read kind ≡ false }
        requires may { MayAct regions.old self.piece.key (piece_writing kind qp domain self) }
        ensures { regions.new ≡ lent_after regions.old self.piece.key (piece_writing kind qp domain self) }
    {
        let PieceWrite { piece, bytes } = self;
        regions.act(kind, piece, bytes, qp, domain, &mut []);
    }
}

/// The writes of bytes to pieces, the first bytes to the first piece and so on, with no more memory than they need, since
/// journals keep them.
pub fn piece_writes(
    alloc: Global,
    found: &[Piece],
    bytes: &[u8],
) -> Result<List<PieceWrite>, AllocError>
    requires some { all_have_bytes found.now ≡ true }
    requires enough { pieces_length found.now ≤ length bytes.now }
    ensures { IfOk result (λ writes. writes ≡ writes_of found.now bytes.now) }
{
    let mut writes = List::new(alloc);
    let mut at = 0usize;
    for piece in found {
        let to = at + piece.length as usize;
        let held = action_bytes(alloc, &bytes[at..to])?;
        writes.push(PieceWrite {
            piece: *piece,
            bytes: held,
        })?;
        at = to;
    }
    Ok(writes)
}

/// A piece that is to be read, and the bytes that the region's journal will keep of that. Contracts see the piece.
#[derive(Drop)]
struct BlankRead {
    piece: Piece,
    held: Bytes,
}

impl Model for BlankRead {
    ghost use Rattle.std.specs.Prelude.{◌≡◌, ◌<◌, replicate};
    ghost use Rattle.uv_region.specs.declared.piece.Piece.{Piece};

    ghost Value = { Piece };

    ghost view = { λ b. b.piece };

    ghost invariant = { λ b. (0 < b.piece.length) × (b.held.bytes ≡ replicate b.piece.length 0) };
}

impl BlankRead {
    fn new(alloc: Global, piece: Piece) -> Result<BlankRead, AllocError>
        requires { 0 < piece.length }
        ensures { IfOk result (λ blank. blank ≡ piece) }
    {
        Ok(BlankRead {
            piece,
            held: blank_bytes(alloc, piece.length)?,
        })
    }

    /// Reads the piece, and puts its bytes after those of a payload.
    fn read(self, regions: &mut Regions, kind: Access, qp: u32, domain: u32, payload: &mut Bytes)
        requires reads { is_read kind ≡ true }
        requires ready { MayAct regions.old self.key (piece_reading kind qp domain self) }
        requires spare { self.length ≤ payload.old.spare }
        ensures lent { regions.new ≡ lent_after regions.old self.key (piece_reading kind qp domain self) }
        ensures payload { payload.new.bytes ≡ payload.old.bytes ++ lent_bytes regions.old self.key (piece_reading kind qp domain self) }
        ensures spare { payload.old.spare ≤ payload.new.spare + self.length }
    {
        let BlankRead { piece, held } = self;
        regions.read(kind, piece, held, qp, domain, payload);
    }
}

fn blank_reads(alloc: Global, found: &[Piece]) -> Result<List<BlankRead>, AllocError>
    requires { all_have_bytes found.now ≡ true }
    ensures { IfOk result (λ blanks. blanks ≡ found.now) }
{
    let mut blanks = List::new(alloc);
    for piece in found {
        blanks.push(BlankRead::new(alloc, *piece)?)?;
    }
    Ok(blanks)
}

/// Reads the pieces in order, for which there is room.
fn read_all(
    regions: &mut Regions,
    kind: Access,
    blanks: &mut List<BlankRead>,
    qp: u32,
    domain: u32,
    payload: &mut Bytes,
)
    requires reads { is_read kind ≡ true }
    requires ready { MayReadAll regions.old kind qp domain blanks.old }
    requires spare { pieces_length blanks.old ≤ payload.old.spare }
    ensures lent { regions.new ≡ lent_read regions.old kind qp domain blanks.old }
    ensures payload { payload.new.bytes ≡ payload.old.bytes ++ gathered regions.old kind qp domain blanks.old }
{
    for _ in 0..blanks.len() {
        let blank = blanks.remove(0);
        blank.read(regions, kind, qp, domain, payload);
    }
}

/// The bytes of at most so many pieces as a work has parts.
fn pieces_length(found: &[Piece]) -> u64
    requires { length found.now ≤ WORK_PARTS }
    ensures { result ≡ pieces_length found.now }
{
    let mut whole = 0u64;
    for piece in found {
        whole += u64::from(piece.length);
    }
    whole
}

/// Several pieces.
impl Regions {
    /// Whether the region of each piece's key is there, and an action of this kind on the piece may be made for a domain.
    pub fn allows_all(&self, kind: Access, found: &[Piece], domain: u32) -> bool
        ensures { result ≡ lent_allows_all self.now kind domain found.now }
    {
        found.iter().all(|piece| self.allows(kind, *piece, domain))
    }

    /// Makes all writes, in order, each of which is allowed after those before it and has room. It takes no memory.
    pub fn write_all(&mut self, kind: Access, writes: List<PieceWrite>, qp: u32, domain: u32)
        requires writes { is_read kind ≡ false }
        requires may { MayWriteAll self.old kind qp domain writes }
        ensures { self.new ≡ lent_written self.old kind qp domain writes }
    {
        let mut left = writes;
        write_each(self, kind, &mut left, qp, domain);
    }

    /// Reads pieces in order, each of which may be read, and puts their bytes together (`copy_data`, `rxe_mr.c`). All memory is
    /// taken before the first is read: where there is none, nothing that counts has changed.
    pub fn gather(
        &mut self,
        alloc: Global,
        kind: Access,
        found: &[Piece],
        qp: u32,
        domain: u32,
    ) -> Result<Bytes, AllocError>
        requires reads { is_read kind ≡ true }
        requires few { length found.now ≤ WORK_PARTS }
        requires some { all_have_bytes found.now ≡ true }
        requires allowed { lent_allows_all self.old kind domain found.now ≡ true }
        ensures bytes { IfOk result (λ b. b.bytes ≡ gathered (with_rooms_for self.old found.now) kind qp domain found.now) }
        ensures ok { OnOk result (self.new ≡ lent_read (with_rooms_for self.old found.now) kind qp domain found.now) }
        ensures err { OnErr result (StaysKnown self.old self.new) }
    {
        let mut payload = Bytes::with_room(alloc, pieces_length(found) as usize)?;
        let mut blanks = blank_reads(alloc, found)?;
        self.reserve_all(alloc, found, found.len() as u32)?;
        read_all(self, kind, &mut blanks, qp, domain, &mut payload);
        Ok(payload)
    }
}

fn write_each(
    regions: &mut Regions,
    kind: Access,
    writes: &mut List<PieceWrite>,
    qp: u32,
    domain: u32,
)
    requires writes { is_read kind ≡ false }
    requires may { MayWriteAll regions.old kind qp domain writes.old }
    ensures { regions.new ≡ lent_written regions.old kind qp domain writes.old }
{
    for _ in 0..writes.len() {
        let write = writes.remove(0);
        write.make(kind, qp, domain, regions);
    }
}
