// What the programs of the tests share: standard output as a writer, and how a list of calls or files is replayed. A list is read from its front, and what is read is
// taken off it; past its end there are zeros.
#![tactic(auto)]

ghost use Rattle.std.specs.Prelude.{◌≡◌, ℕ, ◌<◌, ◌≤◌, length, slice_index, take, drop};
ghost use Rattle.std.specs.List.{AllWithin};
ghost use Rattle.std.specs.Int.{w32, from_le_bytes};

use std::io::{Read, Result, Write};

// The descriptors of standard input and output.
pub const STDIN_FILENO: i32 = 0;

pub const STDOUT_FILENO: i32 = 1;

// Standard output as a writer. The runtime's own tells why a write failed, for which one more function of C would be assumed (`rattle_errno`). A write that fails is passed
// over, piece by piece, and the programs go on: what they wrote is compared.
#[derive(Drop)]
pub struct Out;

impl Write for Out {
    fn write(&mut self, buf: &[u8]) -> Result<usize> {
        io::write_all(STDOUT_FILENO, buf);
        Ok(buf.len())
    }

    fn flush(&mut self) -> Result<()> {
        Ok(())
    }
}

// An array of one value. A caller needs it for a list's million bytes: a literal of that length in `main` is more than the check can compute.
pub fn filled<T: Copy, const N: usize>(value: T) -> [T; N]
    ensures len { length result ≡ N }
    ensures values { AllWithin (λ x. x ≡ value) result 0 N }
{
    [value; N]
}

// The next N bytes.
fn bytes<const N: usize>(list: &mut &[u8]) -> [u8; N]
    ensures value { (i : ℕ) → i < N → slice_index result i ≡ slice_index list.old.now i }
    ensures rest { list.new.now ≡ drop N list.old.now }
{
    let mut front = [0; N];
    // A read from memory does not fail.
    let _ = list.read(&mut front);
    front
}

// The next byte.
pub fn byte(list: &mut &[u8]) -> u8
    ensures value { result ≡ slice_index list.old.now 0 }
    ensures rest { list.new.now ≡ drop 1 list.old.now }
{
    let [b] = bytes::<1>(list);
    b
}

// The next four bytes as a number, little-endian.
pub fn number(list: &mut &[u8]) -> u32
    ensures value { result ≡ from_le_bytes w32 list.old.now }
    ensures rest { list.new.now ≡ drop 4 list.old.now }
{
    u32::from_le_bytes(bytes(list))
}

// The next n bytes, or all that are left where there are fewer.
pub fn part<'a>(list: &mut &'a [u8], n: usize) -> &'a [u8]
    ensures front { result.now ≡ take n list.old.now }
    ensures rest { list.new.now ≡ drop n list.old.now }
{
    let (front, rest) = list.split_at(n.min(list.len()));
    *list = rest;
    front
}

// What a list says of one call.
pub trait Call: Sized {
    // The next call of the list.
    fn read(list: &mut &[u8]) -> Self
        ensures { length list.new.now ≤ length list.old.now };
}

// Hands each call of a list to `answer`, in order, with its file. The list has for each file its length, its bytes, the count of its calls, and these.
pub fn each_call<C: Call, F: FnMut(&[u8], C)>(list: &[u8], mut answer: F)
    requires { F.IsAlwaysCallable answer }
{
    let mut rest = list;
    while !rest.is_empty() {
        let len = number(&mut rest) as usize;
        let file = part(&mut rest, len);
        for _ in 0..number(&mut rest) {
            answer(file, C::read(&mut rest));
        }
    }
}

// The greatest sizes that a run uses: bytes of the pool, and ten words for each of 1,024 entries of the stack and of 4,096 places.
pub const POOL: usize = 65536;

pub const STACK: usize = 10240;

pub const PLACES: usize = 40960;

// What a list says of one run: the statement, and how much is lent, in bytes of the pool and in words.
#[derive(Clone, Copy)]
pub struct Run {
    pub statement: usize,
    pub pool: usize,
    pub stack: usize,
    pub places: usize,
    ghost in_room: { (pool ≤ 65536) × (stack ≤ 10240) × (places ≤ 40960) },
}

// The list counts entries and places, of ten words each. No more is lent than there is.
impl Call for Run {
    fn read(list: &mut &[u8]) -> Run {
        Run {
            statement: number(list) as usize,
            pool: POOL.min(number(list) as usize),
            stack: STACK.min(10 * number(list) as usize),
            places: PLACES.min(10 * number(list) as usize),
        }
    }
}

// What each byte and each word that is lent is set to before a run: no byte of it is zero.
pub const SOIL_BYTE: u8 = 165;

pub const SOIL_WORD: u64 = 12297829382473034411;
