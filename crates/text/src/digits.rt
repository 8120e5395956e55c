// How long a number is in print.
ghost use Rattle.std.specs.Prelude.{◌≡◌, ◌≤◌, length, decimal};

use itoa::Buffer;

// How many digits a number has.
pub fn number_len(n: u64) -> usize
    ensures len { result ≡ length (decimal n) }
    ensures small { result ≤ 20 }
{
    Buffer::new().format(n).len()
}
