// Total readers of the file's bytes: a byte past the end reads as 0. Numbers ask only that their offset is far from the end of `usize`;
// where all their bytes are in the file they are read by one test of the length.
#![tactic(auto, unfolding(crate::specs::Layout::byte, crate::specs::Layout::u16, crate::specs::Layout::u32))]

ghost use Rattle.std.specs.Prelude.{◌≡◌, ◌<◌, ◌^◌, ◌+◌, length, take, drop};
ghost use Rattle.frames.specs.Layout.{byte, u16, u32};

// A byte of the file.
pub fn byte_at(file: &[u8], i: usize) -> usize
    ensures { (result ≡ byte file.now i) × (result < 256) }
{
    file.get(i).copied().unwrap_or(0) as usize
}

// A number of two bytes that are in the file.
fn near_u16(file: &[u8], i: usize) -> usize
    requires { i + 1 < length file.now }
    ensures { (result ≡ u16 file.now i) × (result < 65536) }
{
    u16::from_le_bytes([file[i], file[i + 1]]) as usize
}

// A number of four bytes that are in the file.
fn near_u32(file: &[u8], i: usize) -> usize
    requires { i + 3 < length file.now }
    ensures { (result ≡ u32 file.now i) × (result < 4294967296) }
{
    u32::from_le_bytes([file[i], file[i + 1], file[i + 2], file[i + 3]]) as usize
}

// A number of two bytes.
pub fn u16_at(file: &[u8], i: usize) -> usize
    requires { i < 2 ^ 61 }
    ensures { (result ≡ u16 file.now i) × (result < 65536) }
{
    if i + 1 < file.len() {
        near_u16(file, i)
    } else {
        byte_at(file, i)
    }
}

// A number of four bytes.
pub fn u32_at(file: &[u8], i: usize) -> usize
    requires { i < 2 ^ 60 }
    ensures { (result ≡ u32 file.now i) × (result < 4294967296) }
{
    if i + 3 < file.len() {
        near_u32(file, i)
    } else {
        u16_at(file, i) + 65536 * u16_at(file, i + 2)
    }
}

// The bytes from `from` on, at most `size` of them, as a part of the file.
pub fn part(file: &[u8], from: usize, size: usize) -> &[u8]
    ensures { result.now ≡ take size (drop from file.now) }
{
    let from = from.min(file.len());
    let size = size.min(file.len() - from);
    &file[from..from + size]
}
