// A row of at most 131 bytes.
ghost use Rattle.std.specs.Prelude.{◌≡◌, ◌≤◌, length};

mod calls;

// The first `count` of the cells are held. 131 is one byte more than the longest line, so that a line too long is seen to be so. An `ArrayVec` was tried, and proves; but it is not `Copy`, and this type is.
#[derive(Clone, Copy)]
pub struct Buffer {
    cells: [u8; 131],
    count: usize,
    ghost width: { length cells ≡ 131 },
    ghost fits: { count ≤ 131 },
}
