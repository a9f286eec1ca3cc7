// A page of words.
ghost use Rattle.std.specs.Prelude.{◌≡◌, length};

/// 64 words of 64 bits.
#[derive(Clone, Copy)]
pub(crate) struct Page {
    pub(crate) words: [u64; 64],
    ghost full: { length words ≡ 64 },
}
