// A port of parts of src/verify.rs of metamath-rs 0.3.9 (writing into the buffer), changed (see NOTICE).
// Writing into the pool: a text, a name with its last byte marked, a copy within the pool.
ghost use Rattle.std.specs.Prelude.{◌≡◌, ◌+◌, ◌-◌, ◌≤◌, ◌<◌, length};
ghost use Rattle.packed.specs.Packing.{ended};
ghost use Rattle.packed.specs.Pool.{written, range, Adds, Untouched};

// Puts a text into the pool at `at`. (A loop: the texts are names of few bytes, which a call of `copy_from_slice` makes slower: 1,000 symbols of
// 3 bytes by names went from 493 to 380 million bytes a second, tests/bench/packed.sh. And that call needs `memmove` from outside where C links the archive.)
pub fn put_text(pool: &mut [u8], at: usize, text: &[u8])
    requires { at + length text.now ≤ length pool.old }
    ensures { pool.new ≡ written text.now at pool.old }
{
    for (i, byte) in text.iter().enumerate() {
        pool[at + i] = *byte;
    }
}

// Puts a name of one byte into the pool at `at`, its high bit set. Most names are of one byte.
fn put_byte(pool: &mut [u8], at: usize, name: &[u8])
    requires { (length name.now ≡ 1) × (at < length pool.old) }
    ensures { pool.new ≡ written (ended name.now) at pool.old }
{
    let byte = name[0];
    pool[at] = 128 + byte % 128;
}

// Puts a name into the pool at `at`, the high bit set on its last byte.
fn put_name(pool: &mut [u8], at: usize, name: &[u8])
    requires { at + length name.now ≤ length pool.old }
    ensures { pool.new ≡ written (ended name.now) at pool.old }
{
    let n = name.len();
    if n == 1 {
        put_byte(pool, at, name);
        return;
    }
    put_text(pool, at, name);
    if let Some(last) = name.last() {
        pool[at + n - 1] = 128 + last % 128;
    }
}

// Copies the bytes from `from` up to `to`, which stand before `at`, to `at`.
fn copy_within(pool: &mut [u8], from: usize, to: usize, at: usize)
    requires { (from ≤ to) × ((to ≤ at) × (at + (to - from) ≤ length pool.old)) }
    ensures { pool.new ≡ written (range from to pool.old) at pool.old }
{
    pool.copy_within(from..to, at);
}

// Adds a name to the pool: how far it is used then, or none where there is no room.
pub fn add_name(pool: &mut [u8], used: usize, limit: usize, name: &[u8]) -> Option<usize>
    requires { (used ≤ limit) × (limit ≤ length pool.old) }
    ensures adds { Adds (ended name.now) used limit pool.old pool.new result }
    ensures full { Untouched pool.old pool.new result }
{
    let n = name.len();
    if limit - used < n {
        return None;
    }
    put_name(pool, used, name);
    Some(used + n)
}

// Adds a copy of the bytes from `from` up to `to`, which are in use, to the pool: how far it is used then, or none where there is no room.
pub fn add_range(
    pool: &mut [u8],
    used: usize,
    limit: usize,
    from: usize,
    to: usize,
) -> Option<usize>
    requires { ((from ≤ to) × (to ≤ used)) × ((used ≤ limit) × (limit ≤ length pool.old)) }
    ensures adds { Adds (range from to pool.old) used limit pool.old pool.new result }
    ensures full { Untouched pool.old pool.new result }
{
    let size = to - from;
    if limit - used < size {
        return None;
    }
    copy_within(pool, from, to, used);
    Some(used + size)
}
