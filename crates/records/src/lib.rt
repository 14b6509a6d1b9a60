// Marks, little-endian fields and bytes at a place of a file, for any kind of record. Each call is
// total: past the end a byte reads as 0, and what doesn't fit isn't written.
#![tactic(auto)]

ghost use Rattle.std.specs.Prelude.{◌≡◌, get_or, drop};
ghost use Rattle.records.specs.Fields.{h_at, w_at, marked, written};

// The most bytes that a file may have.
pub const FILE_BYTES: usize = 65536;

// The byte at a place.
pub fn byte_at(s: &[u8], at: usize) -> u8
    ensures { result ≡ get_or s.now at 0 }
{
    s.get(at).copied().unwrap_or(0)
}

// The field h at a place.
pub fn h_at(s: &[u8], at: usize) -> u16
    ensures { result ≡ h_at s.now at }
{
    if at < s.len() {
        (s[at] as u16) + (byte_at(s, at + 1) as u16) * 256
    } else {
        0
    }
}

// The field w at a place.
pub fn w_at(s: &[u8], at: usize) -> u32
    ensures { result ≡ w_at s.now at }
{
    let low = h_at(s, at) as u32;
    if at < s.len().saturating_sub(2) {
        low + (h_at(s, at + 2) as u32) * 65536
    } else {
        low
    }
}

// Whether the two bytes at a place are the mark.
pub fn is_mark(s: &[u8], at: usize, mark: &[u8; 2]) -> bool
    ensures { result ≡ marked mark.now (drop at s.now) }
{
    if at < s.len() {
        s[at] == mark[0] && byte_at(s, at + 1) == mark[1]
    } else {
        mark[0] == 0 && mark[1] == 0
    }
}

// The bytes go over those of out at a place, where they fit.
pub fn put(out: &mut [u8], at: usize, bytes: &[u8])
    ensures { out.new ≡ written out.old at bytes.now }
{
    let count = bytes.len();
    if at <= out.len() && count <= out.len() - at {
        out[at..at + count].copy_from_slice(bytes);
    }
}
