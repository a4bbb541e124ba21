// Big-endian numbers in lent bytes, a function for each width: the library has no trait over them.
ghost use Rattle.std.specs.Prelude.{◌≡◌, ◌+◌, ◌≤◌, length};
ghost use Rattle.script.specs.Number as big;
ghost use Rattle.script.specs.Buffer.{wrote};

// The number in the 4 bytes from `at` on.
pub(crate) fn word(bytes: &[u8], at: usize) -> u32
    requires { at + 4 ≤ length bytes.now }
    ensures { result ≡ big.number at 4 bytes.now }
{
    u32::from_be_bytes(bytes[at..at + 4].try_into().unwrap())
}

// The number in the 8 bytes from `at` on.
pub(crate) fn long(bytes: &[u8], at: usize) -> u64
    requires { at + 8 ≤ length bytes.now }
    ensures { result ≡ big.number at 8 bytes.now }
{
    u64::from_be_bytes(bytes[at..at + 8].try_into().unwrap())
}

// Puts a number into the 8 bytes from `at` on.
pub(crate) fn put_long(bytes: &mut [u8], at: usize, n: u64)
    requires { at + 8 ≤ length bytes.old }
    ensures { bytes.new ≡ wrote bytes.old at (big.encoded 8 n) }
{
    bytes[at..at + 8].copy_from_slice(&n.to_be_bytes());
}
