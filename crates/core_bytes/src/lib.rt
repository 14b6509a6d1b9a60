// Fields and bytes at a place that is known to be there, so without a test. Crate records has the
// same for any place.
#![tactic(auto)]

ghost use Rattle.std.specs.Prelude.{◌≡◌, ◌&&◌, ◌+◌, ◌*◌, ◌≤◌, length, get_or, eqb};
ghost use Rattle.std.proofs.Math.Seq.{paste};

// The field h at a place.
pub fn h_at(s: &[u8], at: usize) -> u16
    requires { at + 2 ≤ length s.now }
    ensures { result ≡ get_or s.now at 0 + get_or s.now (at + 1) 0 * 256 }
{
    u16::from_le_bytes([s[at], s[at + 1]])
}

// The field w at a place.
pub fn w_at(s: &[u8], at: usize) -> u32
    requires { at + 4 ≤ length s.now }
    ensures { result ≡ get_or s.now at 0 + get_or s.now (at + 1) 0 * 256
        + (get_or s.now (at + 2) 0 + get_or s.now (at + 3) 0 * 256) * 65536 }
{
    u32::from_le_bytes([s[at], s[at + 1], s[at + 2], s[at + 3]])
}

// Whether the two bytes at a place are the mark. As numbers, so that the compiler joins the loads.
pub fn is_mark(s: &[u8], at: usize, mark: &[u8; 2]) -> bool
    requires { at + 2 ≤ length s.now }
    ensures { result ≡ eqb (get_or s.now at 0) (get_or mark.now 0 0)
        && eqb (get_or s.now (at + 1) 0) (get_or mark.now 1 0) }
{
    h_at(s, at) == u16::from_le_bytes(*mark)
}

// Bytes go to a place of a buffer that has room for them.
pub fn put(out: &mut [u8], at: usize, bytes: &[u8])
    requires { at + length bytes.now ≤ length out.old }
    ensures { out.new ≡ paste out.old at bytes.now (length bytes.now) }
{
    out[at..at + bytes.len()].copy_from_slice(bytes);
}
