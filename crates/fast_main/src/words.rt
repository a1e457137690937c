// Words of a size.

ghost use Rattle.std.specs.Prelude.{◌≡◌};
ghost use Rattle.fast_main.specs.Words.{bits_of};

use word_code::laziness::WordSize;

/// How many bits words of the size have at most.
pub(crate) fn bits_of(size: WordSize) -> u64
    ensures { result ≡ bits_of size }
{
    match size {
        WordSize::Of16 => 16,
        WordSize::Of32 => 32,
        WordSize::Of52 => 52,
        WordSize::Of64 => 64,
    }
}
