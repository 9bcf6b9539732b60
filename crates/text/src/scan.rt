// A byte is sought.
ghost use Rattle.std.specs.Prelude.{◌≡◌, ◌==◌, position};

// Where a byte first stands.
pub fn find(bytes: &[u8], byte: u8) -> Option<usize>
    ensures { result ≡ position (λ b. b == byte) bytes.now }
{
    bytes.iter().position(|b| *b == byte)
}
