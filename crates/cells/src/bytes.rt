// Bytes from one slice to another of the same length. All of a piece are read before one is written, so that no store comes between the
// loads: where the length is a literal at the call, a piece is a load and a store or a few, and else a call of memmove. The array is in neither.
ghost use Rattle.std.specs.Prelude.{◌≡◌, ◌≤◌, length};

// How many bytes a piece has at most.
const PIECE: usize = 16384;

// The bytes of a piece.
pub fn move_piece(to: &mut [u8], from: &[u8])
    requires few { length from.now ≤ 16384 }
    requires alike { length to.old ≡ length from.now }
    ensures { to.new ≡ from.now }
{
    // Kept: tried as one copy straight from the source, and it misses the bar: a transpose of 300 x 300 takes 74 us for 40 with cells of
    // 2 bytes, 150 for 84 with 3, 71 for 41 with 4, and 1,024 rows of 64 bytes 44,488 instructions for 29,866.
    let n = from.len();
    let mut piece = [0u8; PIECE];
    piece[..n].copy_from_slice(from);
    to.copy_from_slice(&piece[..n]);
}

// Any number of bytes, piece by piece.
// Kept: not `copy_from_slice` whole. The compiler asks first whether the slices overlap, and has a loop byte by byte for it.
pub fn move_bytes(to: &mut [u8], from: &[u8])
    requires alike { length to.old ≡ length from.now }
    ensures { to.new ≡ from.now }
{
    let n = from.len();
    // Kept: pieces by their places, since of what `chunks_mut` lent a proof knows the length and not the elements.
    let mut i = 0;
    while PIECE < n - i {
        move_piece(&mut to[i..i + PIECE], &from[i..i + PIECE]);
        i += PIECE;
    }
    move_piece(&mut to[i..], &from[i..]);
}
