//! Where the bytes of a message lie in the parts of a work.

ghost use Rattle.std.specs.Prelude.{◌≡◌, ◌++◌, ◌∷◌, [], ◌≤◌, ◌<◌, ◌+◌, length, true};
ghost use Rattle.uv_num.specs.declared.limits.TheConstants.{WORK_PARTS};
ghost use Rattle.uv_region.specs.Several.{all_have_bytes, pieces_length};
ghost use Rattle.uv_qp.specs.Pieces.{within_part, piece_of, pieces};

use std::marker::Model;
use uv_num::WORK_PARTS;
use uv_region::Piece;
use uv_wr::Sge;

/// Pieces of regions, at most one for each part of a work. They take no memory.
#[derive(Debug, Drop)]
pub struct PieceList {
    places: [Piece; WORK_PARTS],
    count: usize,
}

impl Model for PieceList {
    ghost use Rattle.std.specs.Prelude.{◌≤◌, List, take};
    ghost use Rattle.uv_num.specs.declared.limits.TheConstants.{WORK_PARTS};
    ghost use Rattle.uv_region.specs.declared.piece.Piece.{Piece};

    ghost Value = { List Piece };

    ghost view = { λ l. take l.count l.places };

    ghost invariant = { λ l. l.count ≤ WORK_PARTS };
}

impl PieceList {
    /// No pieces.
    fn new() -> PieceList
        ensures { result ≡ [] }
    {
        let none = Piece {
            key: 0,
            offset: 0,
            length: 0,
        };
        PieceList {
            places: [none; WORK_PARTS],
            count: 0,
        }
    }

    /// The pieces, in order: at most `WORK_PARTS`.
    pub fn as_slice(&self) -> &[Piece]
        ensures pieces { result.now ≡ self.now }
        ensures few { length result.now ≤ WORK_PARTS }
    {
        &self.places[..self.count]
    }

    /// Puts a piece after the others.
    fn put(&mut self, piece: Piece)
        requires { length self.old < WORK_PARTS }
        ensures { self.new ≡ self.old ++ piece ∷ [] }
    {
        self.places[self.count] = piece;
        self.count += 1;
    }
}

/// How many of so many bytes, from a place on, lie in a part of this length.
fn within_part(size: u32, from: u32, count: u32) -> u32
    ensures within { result ≡ within_part size from count }
    ensures most { result ≤ count }
{
    size.saturating_sub(from).min(count)
}

/// Puts the piece of a part after the others, if it has bytes.
fn put_piece(found: &mut PieceList, part: Sge, from: u32, count: u32)
    requires { length found.old < WORK_PARTS }
    ensures pieces { found.new ≡ found.old ++ piece_of part from count }
    ensures more { length found.new ≤ length found.old + 1 }
{
    if count != 0 {
        found.put(Piece {
            key: part.key,
            offset: u128::from(part.offset) + u128::from(from),
            length: count,
        });
    }
}

/// The pieces of the parts that have so many bytes from a place on, in order (`copy_data`, `rxe_mr.c`, walks them). What is
/// beyond the parts has no piece; each piece has bytes, and all together no more than so many. It takes no memory.
pub fn pieces(parts: &[Sge], from: u32, count: u32) -> PieceList
    requires { length parts.now ≤ WORK_PARTS }
    ensures pieces { result ≡ pieces parts.now from count }
    ensures full { all_have_bytes result ≡ true }
    ensures most { pieces_length result ≤ count }
{
    let mut found = PieceList::new();
    let mut at = from;
    let mut left = count;
    for part in parts {
        let here = within_part(part.length, at, left);
        put_piece(&mut found, *part, at, here);
        at = at.saturating_sub(part.length);
        left -= here;
    }
    found
}
