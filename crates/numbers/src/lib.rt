// Numbers in bytes. "Multi-byte numbers are unsigned, low byte first."
#![tactic(auto)]

ghost use Rattle.std.specs.Prelude.{◌≡◌, ◌+◌, ◌≤◌, ◌<◌, length};
ghost use Rattle.std.proofs.lemmas.List.Edits.{sets};
ghost use Rattle.numbers.specs.Bytes.{byte, number, digits};

// A number of one byte that counts or indexes, as a section's count.
pub fn count_at(t: &[u8], at: usize) -> usize
    requires { at < length t.now }
    ensures { (result ≡ byte t.now at) × (result < 256) }
{
    t[at] as usize
}

// The number that the four bytes from `at` on stand for.
pub fn number4(t: &[u8], at: usize) -> u32
    requires { at + 4 ≤ length t.now }
    ensures { result ≡ number 4 t.now at }
{
    u32::from_le_bytes([t[at], t[at + 1], t[at + 2], t[at + 3]])
}

// A number's four bytes, from `at` on.
pub fn put4(out: &mut [u8], at: usize, v: u32)
    requires { at + 4 ≤ length out.old }
    ensures { out.new ≡ sets out.old at (digits 4 v) }
{
    out[at..at + 4].copy_from_slice(&v.to_le_bytes());
}
