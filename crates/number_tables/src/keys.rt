// Keys of two numbers.
ghost use Rattle.std.specs.Prelude.{◌≡◌};
ghost use Rattle.number_tables.specs.Keys.{key_of};

/// Two numbers as one key, the first in its high half.
pub fn key_of(high: u32, low: u32) -> u64
    ensures { result ≡ key_of high low }
{
    u64::from(high) * 4_294_967_296 + u64::from(low)
}
