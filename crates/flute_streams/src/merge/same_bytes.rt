//! Whether two symbols have the same bytes, compared in pieces.
ghost use Rattle.std.specs.Prelude.{◌≡◌, ◌≤◌, bytes_eq, length};

// How many bytes are compared without a look whether they differ: the compiler compares 16 of them
// at a time then.
const PIECE: usize = 512;

// How many bytes are compared at the end, if no more are left: three pieces then hold the entry of
// a symbol of up to 1,428 bytes, as in an Ethernet frame.
const SHORT: usize = 448;

/// Whether bytes are the same.
#[inline(always)]
pub fn same_bytes(first: &[u8], second: &[u8]) -> bool
    ensures { result ≡ bytes_eq first.now second.now }
{
    if first.len() < PIECE {
        first == second
    } else {
        first.len() == second.len() && same_pieces(first, second)
    }
}

// The same of as many bytes, piece by piece. The last piece may begin within the one before it, so
// that no bytes are left.
#[inline(never)]
fn same_pieces(first: &[u8], second: &[u8]) -> bool
    requires many { 512 ≤ length first.now }
    requires as_many { length first.now ≡ length second.now }
    ensures { result ≡ bytes_eq first.now second.now }
{
    let mut left = first;
    let mut right = second;
    while left.len() > PIECE {
        let (piece, left_rest) = left.split_at(PIECE);
        let (other, right_rest) = right.split_at(PIECE);
        if !same_piece::<PIECE>(piece, other) {
            return false;
        }
        left = left_rest;
        right = right_rest;
    }
    if left.len() <= SHORT {
        let begin = first.len() - SHORT;
        same_piece::<SHORT>(&first[begin..], &second[begin..])
    } else {
        let begin = first.len() - PIECE;
        same_piece::<PIECE>(&first[begin..], &second[begin..])
    }
}

// Whether the bytes are the same in one piece.
#[inline(always)]
fn same_piece<const SIZE: usize>(first: &[u8], second: &[u8]) -> bool
    requires first { length first.now ≡ SIZE }
    requires second { length second.now ≡ SIZE }
    ensures { result ≡ bytes_eq first.now second.now }
{
    let mut same = true;
    for index in 0..SIZE {
        same = same & (first[index] == second[index]);
    }
    same
}
