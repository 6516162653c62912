// The mask of a mask word.
ghost use Rattle.std.specs.Prelude.{◌≡◌};
ghost use Rattle.int64.specs.Mask.{mask_of};

// The pattern of a mask: len ones from bit lo upward, cut to 64 bits.
pub fn mask(lo: u64, len: u64) -> u64
    ensures { result ≡ mask_of lo len }
{
    if lo >= 64 {
        return 0;
    }
    if len >= 64 {
        return 0xffff_ffff_ffff_ffff << lo;
    }
    ((1 << len) - 1) << lo
}
