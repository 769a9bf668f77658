//! The checksum of bytes. It takes them in pieces, whose hashes are hashed: so a processor looks at several pieces at
//! once, and it can go on behind whole ones.

ghost use Rattle.std.specs.{Hash.FoldHasher.{finish, write}, Prelude.{◌≡◌, ◌/◌, length}};
ghost use Rattle.dr_yard.specs.Checksums.{checksum, checksum_from, hashed, with_piece};

use std::hash::{FoldHasher, Hasher};

/// How many bytes a piece has.
pub(crate) const PIECE: usize = 128;

/// The checksum of some bytes.
pub fn checksum(bytes: &[u8]) -> u64
    ensures { result ≡ checksum bytes.now }
{
    checksum_from(FoldHasher::default(), bytes)
}

/// What a hasher behind the pieces before these bytes comes to behind them.
pub(crate) fn checksum_from(hasher: FoldHasher, bytes: &[u8]) -> u64
    ensures { result ≡ checksum_from hasher bytes.now }
{
    let whole = bytes.len() / PIECE * PIECE;
    let mut hasher = hasher;
    hash_pieces(&mut hasher, &bytes[..whole]);
    hasher.write(&bytes[whole..]);
    hasher.finish()
}

/// Has a hasher take whole pieces.
pub(crate) fn hash_pieces(hasher: &mut FoldHasher, pieces: &[u8])
    ensures { hasher.new ≡ hashed with_piece hasher.old pieces.now (length pieces.now / 128) }
{
    for piece in 0..pieces.len() / PIECE {
        hash_piece(hasher, &pieces[piece * PIECE..(piece + 1) * PIECE]);
    }
}

/// Has a hasher take a piece.
#[inline(always)]
fn hash_piece(hasher: &mut FoldHasher, piece: &[u8])
    ensures { hasher.new ≡ with_piece hasher.old piece.now }
{
    let mut of_piece = FoldHasher::default();
    of_piece.write(piece);
    hasher.write(&of_piece.finish().to_le_bytes());
}
