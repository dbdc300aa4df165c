//! How long parts of lists are.
ghost use Rattle.std.specs.Prelude.{◌≡◌, ◌-◌, ◌*◌, ◌<◌, min};

/// Returns the length of the part at an index of a list of `count` elements, in parts of `size` of
/// which the last may be shorter.
pub fn part_length(count: usize, size: usize, index: usize) -> usize
    requires within { size * index < count }
    ensures { result ≡ min size (count - size * index) }
{
    let rest = count - size * index;
    if rest < size { rest } else { size }
}
