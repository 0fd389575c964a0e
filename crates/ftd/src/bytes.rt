// Numbers in bytes, read and put: unsigned, high byte first. Shared by the crates above, which know the bounds.
ghost use Rattle.std.specs.Prelude.{[], ◌∷◌, ◌≡◌, ◌+◌, ◌<◌, ◌≤◌, length};
ghost use Rattle.ftd.specs.Bytes.{be16_of, be32_of, put, bytes16, bytes32};

// A byte as a number of sixteen bits.
pub fn wide16(x: u8) -> u16
    ensures { (result ≡ x) × (result < 256) }
{
    x as u16
}

// A byte as a number of thirty-two bits.
pub fn wide32(x: u8) -> u32
    ensures { (result ≡ x) × (result < 256) }
{
    x as u32
}

// A byte as a length.
pub fn size8(x: u8) -> usize
    ensures { (result ≡ x) × (result < 256) }
{
    x as usize
}

// A number of two bytes as a length.
pub fn size16(x: u16) -> usize
    ensures { (result ≡ x) × (result < 65536) }
{
    x as usize
}

// A number of two bytes as one of four.
pub fn number16(x: u16) -> u32
    ensures { (result ≡ x) × (result < 65536) }
{
    x as u32
}

// A number of four bytes as a length.
pub fn size32(x: u32) -> usize
    ensures { (result ≡ x) × (result < 4294967296) }
{
    x as usize
}

// Stays: tests/copies.py reads each function of a Send, and takes no from_be_bytes or to_be_bytes; of be32,
// put16 and put32 too.
// The number in the two bytes from a place on.
pub fn be16(s: &[u8], at: usize) -> u16
    requires { at + 2 ≤ length s.now }
    ensures { result ≡ be16_of s.now at }
{
    wide16(s[at]) * 256 + wide16(s[at + 1])
}

// The number in the four bytes from a place on.
pub fn be32(s: &[u8], at: usize) -> u32
    requires { at + 4 ≤ length s.now }
    ensures { result ≡ be32_of s.now at }
{
    wide32(s[at]) * 16777216
        + wide32(s[at + 1]) * 65536
        + wide32(s[at + 2]) * 256
        + wide32(s[at + 3])
}

// A byte is put at a place.
pub fn put8(out: &mut [u8], at: usize, x: u8)
    requires { at < length out.old }
    ensures { out.new ≡ put out.old at (x ∷ []) }
{
    out[at] = x;
}

// A number is put into the two bytes from a place on.
pub fn put16(out: &mut [u8], at: usize, x: u16)
    requires { at + 2 ≤ length out.old }
    ensures { out.new ≡ put out.old at (bytes16 x) }
{
    out[at] = (x / 256) as u8;
    out[at + 1] = (x % 256) as u8;
}

// A number is put into the four bytes from a place on.
pub fn put32(out: &mut [u8], at: usize, x: u32)
    requires { at + 4 ≤ length out.old }
    ensures { out.new ≡ put out.old at (bytes32 x) }
{
    out[at] = (x / 16777216) as u8;
    out[at + 1] = (x / 65536 % 256) as u8;
    out[at + 2] = (x / 256 % 256) as u8;
    out[at + 3] = (x % 256) as u8;
}

// Stays: tests/copies.py reads each function of a Send, and takes no copy_from_slice; an enumerate would be no
// plainer.
// Bytes are copied to a place.
pub fn copy_at(out: &mut [u8], at: usize, src: &[u8])
    requires { at + length src.now ≤ length out.old }
    ensures { out.new ≡ put out.old at src.now }
{
    for i in 0..src.len() {
        out[at + i] = src[i];
    }
}
