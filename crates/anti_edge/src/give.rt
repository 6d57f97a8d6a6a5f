ghost use Rattle.std.specs.Prelude.{◌≡◌, length, min};
ghost use Rattle.anti_edge.specs.Outside.{IsFrontGiven};

/// Copies the front of `left` to the front of `buf`, at most `most` bytes, and answers how many.
pub fn give(left: &[u8], most: usize, buf: &mut [u8]) -> usize
    ensures count { result ≡ min most (min (length left.now) (length buf.old)) }
    ensures given { IsFrontGiven result buf.new left.now }
{
    let count = most.min(left.len().min(buf.len()));
    let (front, _) = buf.split_at_mut(count);
    front.copy_from_slice(left.split_at(count).0);
    count
}
